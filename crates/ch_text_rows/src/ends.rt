//! The two ends of a flow.
use ch_cells::Listed;
use ch_ends::{Master, Worker};
use ch_packet::{PacketKind, PacketView};
use std::alloc::Global;

/// The number that a word is.
fn number(word: Option<&str>) -> anyhow::Result<u32> {
    Ok(word.unwrap_or("0").parse::<u32>()?)
}

/// An acknowledgement of a pass, an epoch and a number.
fn on_ack(worker: &mut Worker, said: &str) -> anyhow::Result<()> {
    let mut words = said.split(' ');
    let pass = words.next().unwrap_or("0").parse::<u8>()?;
    let epoch = number(words.next())?;
    let number = number(words.next())?;
    worker.on_ack(pass, epoch, number);
    Ok(())
}

/// What a call answers that asks and changes nothing.
fn asked(alloc: Global, worker: &Worker, word: &str, said: &str) -> anyhow::Result<String> {
    match word {
        "peek" => Ok(format!(in alloc; "{:?}", worker.peek())?),
        "again" => Ok(format!(in alloc; "{:?}", worker.again(said.parse::<u32>()?))?),
        "confirmed" => Ok(format!(in alloc; "{}", worker.confirmed())?),
        "acknowledged" => Ok(format!(in alloc; "{}", worker.acknowledged())?),
        _ => Ok(format!(in alloc; "{}", worker.unacknowledged())?),
    }
}

/// What a call answers.
fn called(alloc: Global, worker: &mut Worker, word: &str, said: &str) -> anyhow::Result<String> {
    match word {
        "begin" => {
            worker.begin(said.parse::<u8>()?);
            Ok(String::new(alloc))
        }
        "next" => Ok(format!(in alloc; "{:?}", worker.next())?),
        "ack" => {
            on_ack(worker, said)?;
            Ok(String::new(alloc))
        }
        "restart" => Ok(format!(in alloc; "{}", worker.restart(said.parse::<u32>()?))?),
        _ => asked(alloc, worker, word, said),
    }
}

/// What each call of a new worker answers.
pub(crate) fn worker(alloc: Global, said: &str) -> anyhow::Result<String> {
    let (sizes, calls) = said.split_once("; ").unwrap_or((said, ""));
    let (rows, window) = sizes.split_once(' ').unwrap_or((sizes, "1"));
    let (rows, window) = (rows.parse::<u32>()?, window.parse::<u32>()?);
    let mut text = String::new(alloc);
    if rows < 1_000_000 && window > 0 {
        let mut worker = Worker::new(alloc, rows, window)?;
        for call in calls.split("; ") {
            let (word, said) = call.split_once(' ').unwrap_or((call, ""));
            let answer = called(alloc, &mut worker, word, said)?;
            text.push_str(answer.as_str())?;
            text.push(';')?;
        }
    }
    Ok(text)
}

/// A master of workers with 2 and 70 rows gets number 70 of the second worker in pass 1 twice.
pub(crate) fn master(alloc: Global) -> anyhow::Result<String> {
    let rows = Listed::from_vec(vec![in alloc; 2, 70]?);
    let mut master = Master::new(alloc, &rows)?;
    let packet = PacketView {
        kind: PacketKind::Row,
        pass: 1,
        worker: 1,
        side: 0,
        number: 70,
        epoch: 0,
        bit: true,
        body: b"",
    };
    let before = master.has(1, 1, 70);
    let (first, second) = (master.take(&packet), master.take(&packet));
    let (after, other) = (master.has(1, 1, 70), master.has(2, 1, 70));
    Ok(format!(in alloc;
        "has {before}, take {first}, take {second}, has {after}, in pass 2 {other}"
    )?)
}
