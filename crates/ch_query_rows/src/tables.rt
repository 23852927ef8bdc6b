//! The tables that the queries are bound to and asked of.
ghost use Rattle.std.specs.Prelude.{◌<◌, ◌-◌, ◌^◌, length, IfOk};
ghost use Rattle.std.specs.List.{All};

use ch_cells::{Bytes, Listed};
use ch_tables::{Room, Table, TableError, read_table};
use std::alloc::Global;

/// Names of tables, and the texts of their parts.
const TABLES: &[(&[u8], &[&[u8]])] = &[
    (
        b"customers",
        &[b"customer,city\nAna,Madrid\nBo,Lund\nEva,Rome\n"],
    ),
    (
        b"sales",
        &[
            b"order_id,customer,country,cents,time\n1001,Ana,ES,2599,1719820800000000000\n1002,Bo,SE,1200,1719820860000000000\n",
            b"order_id,customer,country,cents,time\n1003,Ana,ES,800,1719907200000000000\n1004,Chi,JP,15000,1719907260000000000\n",
            b"order_id,customer,country,cents,time\n1005,Bo,SE,4300,1719993600000000000\n1006,\"Li, Wei\",CN,800,1719993660000000000\n",
        ],
    ),
    (b"t", &[b"k,v\na,6\na,-1\n"]),
    (b"u", &[b"k,y\n1,20\n1,21\n3,22\n"]),
    (b"empty", &[b"a,b\n"]),
    (
        b"sixteen",
        &[
            b"c1,c2,c3,c4,c5,c6,c7,c8,c9,c10,c11,c12,c13,c14,c15,c16\n1,2,3,4,5,6,7,8,9,10,11,12,13,14,15,16\n",
        ],
    ),
    (
        b"seventeen",
        &[
            b"c1,c2,c3,c4,c5,c6,c7,c8,c9,c10,c11,c12,c13,c14,c15,c16,c17\n1,2,3,4,5,6,7,8,9,10,11,12,13,14,15,16,17\n",
        ],
    ),
    (
        b"debts",
        &[b"k,v\na,6\n", b"k,v\n", b"k,v\nb,1\nb,-2\nb,-3\n"],
    ),
    (b"filtered", &[b"a\n3\n9\n5\n"]),
    (b"names", &[b"id,name\n1,\"a,b\"\n007,\n"]),
    (b"nothing", &[b"a\n"]),
    (b"repeated", &[b"a\n5\n5\n7\n5\n"]),
    (b"liked", &[b"a,b\n1,y\n1,x\n"]),
    (b"best", &[b"a,b\n4,1\n9,3\n9,2\n1,0\n9,1\n"]),
    (b"nines", &[b"a\n4\n9\n9\n9\n4\n5\n"]),
    (b"below", &[b"a\n-7\n-3\n-9\n-5\n"]),
    (b"odd", &[b"a\n7\n3\n9\n5\n"]),
    (b"grouped", &[b"k,v\na,3\na,2\nb,1\na,1\n"]),
    (b"summed", &[b"k,v\na,6\na,4\nb,1\n"]),
    (b"counted", &[b"k\na\na\nb\n"]),
    (b"greatest", &[b"k,v\na,2305843009213693951\n"]),
    (
        b"great",
        &[
            b"k,v\na,2305843009213693951\na,2305843009213693951\na,2305843009213693951\na,2305843009213693951\na,2305843009213693951\n",
        ],
    ),
    (b"lefts", &[b"k,x\n1,10\n1,11\n2,12\n"]),
    (b"rights", &[b"k,y\n1,20\n1,21\n3,22\n"]),
    (b"points", &[b"a,b\n5,1\n5,1\n4,2\n3,0\n"]),
    (b"outer_rows", &[b"k,x\n1,10\n2,11\n1,12\n"]),
];

const AMPLE: Room = Room {
    rows: 1_000,
    cells: 10_000,
};

/// The texts of a few short parts.
fn texts_of(alloc: Global, parts: &[&[u8]]) -> Result<Listed<Bytes>, TableError>
    ensures { IfOk result (λ texts. All (λ text. length text < 2 ^ 32 - 1) texts) }
{
    let mut texts = Listed::new(alloc);
    for part in parts {
        if part.len() > 1000 {
            return Err(TableError::Memory);
        }
        texts.push(Bytes::from_slice(alloc, part)?)?;
    }
    Ok(texts)
}

pub(crate) fn read_tables(alloc: Global) -> Result<Listed<Table>, TableError> {
    let mut tables = Listed::new(alloc);
    for (name, parts) in TABLES {
        let texts = texts_of(alloc, parts)?;
        if texts.len() == 0 || texts.len() > 1000 {
            return Err(TableError::Memory);
        }
        tables.push(read_table(alloc, name, &texts, AMPLE)?)?;
    }
    Ok(tables)
}
