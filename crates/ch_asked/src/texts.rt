ghost use Rattle.std.specs.Prelude.{◌≡◌, ◌<◌, ◌+◌, ◌^◌, ◌++◌, All, flat_map, length, map, IfOk, OnOk};
ghost use Rattle.ch_pred.specs.Plain.{plain_of, plains};
ghost use Rattle.ch_tables.specs.Texts.{texts_of, with_text, with_texts};
ghost use Rattle.ch_asked.specs.Texts.{arg_texts, asked_texts, dictionary_of, filter_texts, literal_texts, member_texts, tables_texts};

use ch_cells::Memory;
use ch_pred::{Arg, Bound, BoundPred, Literal};
use ch_ranks::{Ranks, RanksBuilder};
use ch_table_words::add_texts;
use ch_tables::Table;
use std::alloc::Global;

/// Texts that are gathered, and how many more there is a rank for.
#[derive(Drop)]
struct Gathered {
    texts: RanksBuilder,
    left: u32,
    ghost few: { length texts + left < 2 ^ 32 },
}

impl Gathered {
    /// Adds a text, if it isn't there.
    #[tactic(auto, using(crate::proofs::Added::one_longer))]
    fn add(&mut self, text: &[u8]) -> Result<(), Memory>
        ensures { OnOk result (self.new.texts ≡ with_text self.old.texts text.now) }
    {
        if self.left == 0 {
            return Err(Memory);
        }
        self.left -= 1;
        self.texts.add(text)
    }

    /// Adds the texts of a table. What is refused gives up all of them.
    #[tactic(auto, using(crate::proofs::Added::no_longer))]
    fn with_table(self, table: &Table) -> Result<Gathered, Memory>
        ensures { IfOk result (λ more. more.texts ≡ with_texts self.texts (texts_of table.now)) }
    {
        let Gathered { mut texts, left } = self;
        let many = table.texts();
        if left < many {
            return Err(Memory);
        }
        add_texts(&mut texts, table)?;
        Ok(Gathered {
            texts,
            left: left - many,
        })
    }
}

fn add_literal(gathered: &mut Gathered, literal: &Literal) -> Result<(), Memory>
    ensures { OnOk result (gathered.new.texts ≡ with_texts gathered.old.texts (literal_texts literal.now)) }
{
    match literal {
        Literal::Number(_) => Ok(()),
        Literal::Text(text) => gathered.add(text.as_slice()),
    }
}

#[tactic(auto, using(crate::proofs::Added::some_added))]
fn add_literals(gathered: &mut Gathered, literals: &[Literal]) -> Result<(), Memory>
    ensures { OnOk result (gathered.new.texts ≡ with_texts gathered.old.texts (flat_map literal_texts literals.now)) }
{
    for literal in literals {
        add_literal(gathered, literal)?;
    }
    Ok(())
}

fn add_arg(gathered: &mut Gathered, arg: &Arg) -> Result<(), Memory>
    ensures { OnOk result (gathered.new.texts ≡ with_texts gathered.old.texts (arg_texts arg.now)) }
{
    match arg {
        Arg::Column(_) => Ok(()),
        Arg::Value(literal) => add_literal(gathered, literal),
    }
}

#[tactic(auto, using(crate::proofs::Added::added_both))]
fn add_both(gathered: &mut Gathered, low: &Literal, high: &Literal) -> Result<(), Memory>
    ensures { OnOk result (gathered.new.texts ≡ with_texts gathered.old.texts (literal_texts low.now ++ literal_texts high.now)) }
{
    add_literal(gathered, low)?;
    add_literal(gathered, high)
}

/// Adds the literals of a predicate.
#[cycle(adding)]
fn add_filter(gathered: &mut Gathered, p: &BoundPred) -> Result<(), Memory>
    ensures { OnOk result (gathered.new.texts ≡ with_texts gathered.old.texts (filter_texts (plain_of p.now))) }
{
    match p {
        BoundPred::Truth | BoundPred::Like(_, _) => Ok(()),
        BoundPred::Compare(_, _, arg) => add_arg(gathered, arg),
        BoundPred::Between(_, low, high) => add_both(gathered, low, high),
        BoundPred::Within(_, literals) => add_literals(gathered, literals),
        BoundPred::And(members) | BoundPred::Or(members) => add_members(gathered, members),
        BoundPred::Not(inner) => add_filter(gathered, inner),
    }
}

#[cycle(adding)]
#[tactic(auto, using(crate::proofs::Added::some_added))]
fn add_members(gathered: &mut Gathered, members: &[BoundPred]) -> Result<(), Memory>
    ensures { OnOk result (gathered.new.texts ≡ with_texts gathered.old.texts (member_texts (plains (map plain_of members.now)))) }
{
    for member in members {
        add_filter(gathered, member)?;
    }
    Ok(())
}

/// Adds the texts of the tables with these numbers.
#[tactic(auto, using(crate::proofs::Added::some_added))]
fn with_tables(gathered: Gathered, tables: &[Table], numbers: &[u32]) -> Result<Gathered, Memory>
    requires { All (λ number. number < length tables.now) numbers.now }
    ensures { IfOk result (λ more. more.texts ≡ with_texts gathered.texts (tables_texts tables.now numbers.now)) }
{
    let mut gathered = gathered;
    for number in numbers {
        gathered = gathered.with_table(&tables[*number as usize])?;
    }
    Ok(gathered)
}

/// The dictionary of a query: the texts of its literals and of its tables, each once, ranked. More than there are ranks for
/// are answered as want of memory.
#[tactic(auto, using(crate::proofs::Added::dictionary_is))]
pub fn rank_texts(alloc: Global, bound: &Bound, tables: &[Table]) -> Result<Ranks, Memory>
    requires { All (λ number. number < length tables.now) bound.now.tables }
    ensures is { IfOk result (λ texts. texts ≡ dictionary_of (asked_texts bound.now tables.now)) }
    ensures few { IfOk result (λ texts. length texts < 2 ^ 32) }
{
    let mut gathered = Gathered {
        texts: RanksBuilder::new(alloc),
        left: u32::MAX,
    };
    add_filter(&mut gathered, &bound.filter)?;
    let gathered = with_tables(gathered, tables, bound.tables.as_slice())?;
    let Gathered { texts, left: _ } = gathered;
    texts.finish()
}
