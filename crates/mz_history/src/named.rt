//! The greatest frontier that lines name for each collection, kept so that it is found without going over them.
ghost use Rattle.std.specs.Prelude.{◌≡◌, ◌-◌, ◌≤◌, ◌++◌, ◌∷◌, [], ◌==◌, ℕ, IfOk, IsSome, OnErr, OnOk, if◌then◌else◌, length, take};
ghost use Rattle.std.specs.BTreeMap.{get};
ghost use Rattle.std.specs.Ordering.{nat_cmp};
ghost use Rattle.mz_rules.specs.Streams.{told_where_named};
ghost use Rattle.mz_history.specs.Kept.{but_last, AreFound};
ghost use Rattle.mz_history.specs.Lines.{after_line, beside as beside_of, collection_of as collection_in, named_too};

use mz_plan::Command;
use mz_time::Frontier;
use std::alloc::{AllocError, Global};
use std::collections::BTreeMap;

// What is named, once this frontier is named too.
fn beside(old: Option<Frontier>, f: Frontier) -> Frontier
    ensures { result ≡ beside_of old f }
{
    match old {
        Some(old) => old.join(f),
        None => f,
    }
}

/// The collection of which a line names a frontier, where it names one.
pub fn collection_of(line: &Command) -> Option<u64>
    ensures { result ≡ collection_in line.now }
{
    match line {
        Command::Create { collection, .. } => Some(*collection),
        Command::Allow { collection, .. } => Some(*collection),
        Command::Peek { .. } => None,
        Command::Retire { .. } => None,
    }
}

/// What is found of a collection. O(log n).
pub fn found(told: &BTreeMap<u64, Frontier>, collection: u64) -> Option<Frontier>
    ensures { result ≡ get nat_cmp told.now collection }
{
    told.get(&collection).copied()
}

// A frontier of a collection is named.
fn name(told: &mut BTreeMap<u64, Frontier>, collection: u64, f: Frontier) -> Result<(), AllocError>
    ensures ok { OnOk result ((number : ℕ) → get nat_cmp told.new number
        ≡ named_too collection f number (get nat_cmp told.old number)) }
    ensures err { OnErr result ((number : ℕ) → get nat_cmp told.new number ≡ get nat_cmp told.old number) }
{
    let named = beside(found(told, collection), f);
    told.insert(collection, named)?;
    Ok(())
}

/// A line more names what it names. After an `Err` all is found as before. O(log n).
pub fn name_line(told: &mut BTreeMap<u64, Frontier>, line: &Command) -> Result<(), AllocError>
    ensures ok { OnOk result ((number : ℕ) → get nat_cmp told.new number
        ≡ after_line line.now number (get nat_cmp told.old number)) }
    ensures err { OnErr result ((number : ℕ) → get nat_cmp told.new number ≡ get nat_cmp told.old number) }
{
    match line {
        Command::Create {
            collection,
            as_of,
            ..
        } => name(told, *collection, Frontier::At(*as_of)),
        Command::Allow { collection, since } => name(told, *collection, *since),
        Command::Peek { .. } => Ok(()),
        Command::Retire { .. } => Ok(()),
    }
}

/// A line more behind the others. What they name stays found. After an `Err` the lines are as before. O(log n), amortized.
pub fn push_line(
    lines: &mut Vec<Command>,
    told: &mut BTreeMap<u64, Frontier>,
    line: Command,
) -> Result<(), AllocError>
    requires { AreFound told.old lines.old.items }
    ensures found { AreFound told.new lines.new.items }
    ensures ok { OnOk result (lines.new.items ≡ lines.old.items ++ line ∷ []) }
    ensures err { OnErr result (lines.new.items ≡ lines.old.items) }
{
    lines.reserve(1)?;
    name_line(told, &line)?;
    lines.push(line).unwrap();
    Ok(())
}

/// What these lines name of each collection. O(n log n).
pub fn named_by(alloc: Global, lines: &[Command]) -> Result<BTreeMap<u64, Frontier>, AllocError>
    ensures { IfOk result (λ told. AreFound told lines.now) }
{
    let mut told = BTreeMap::new(alloc);
    'lines: for line in lines {
        name_line(&mut told, line)?;
    }
    Ok(told)
}

// What is named of a collection, once a line more is.
fn after(line: &Command, collection: u64, old: Option<Frontier>) -> Option<Frontier>
    ensures { result ≡ after_line line.now collection old }
{
    match line {
        Command::Create {
            collection: own,
            as_of,
            ..
        } if *own == collection => Some(beside(old, Frontier::At(*as_of))),
        Command::Allow {
            collection: own,
            since,
        } if *own == collection => Some(beside(old, *since)),
        _ => old,
    }
}

// What the lines name of a collection, by going over them. Takes no memory.
fn named_in(lines: &[Command], collection: u64) -> Option<Frontier>
    ensures { result ≡ told_where_named collection lines.now }
{
    let mut told = None;
    'lines: for line in lines {
        told = after(line, collection, told);
    }
    told
}

// Puts back what was found of a collection. Takes no memory.
fn put_back(told: &mut BTreeMap<u64, Frontier>, collection: u64, old: Option<Frontier>)
    requires { IsSome (get nat_cmp told.old collection) }
    ensures { (number : ℕ) → get nat_cmp told.new number
        ≡ if collection == number then old else get nat_cmp told.old number }
{
    match old {
        Some(f) => {
            let put: Result<_, _> = told.insert(collection, f);
            put.unwrap();
        }
        None => {
            told.remove(&collection);
        }
    }
}

// A line behind these lines names nothing any more. Takes no memory. O(n).
fn unname(told: &mut BTreeMap<u64, Frontier>, lines: &[Command], line: &Command)
    requires { AreFound told.old (lines.now ++ line.now ∷ []) }
    ensures { AreFound told.new lines.now }
{
    match collection_of(line) {
        Some(collection) => put_back(told, collection, named_in(lines, collection)),
        None => {}
    }
}

/// Lets the last line go, where there is one, with what it names. Takes no memory. O(n).
pub fn let_go_last(lines: &mut Vec<Command>, told: &mut BTreeMap<u64, Frontier>)
    requires { AreFound told.old lines.old.items }
    ensures lines { lines.new.items ≡ but_last lines.old.items }
    ensures len { length lines.new.items ≡ length lines.old.items - 1 }
    ensures found { AreFound told.new lines.new.items }
{
    match lines.pop() {
        Some(line) => unname(told, lines, &line),
        None => {}
    }
}

/// Lets the lines behind a mark go, with what they name. Takes no memory. O(k n), where k lines go.
pub fn let_go_behind(lines: &mut Vec<Command>, told: &mut BTreeMap<u64, Frontier>, mark: usize)
    requires mark { mark ≤ length lines.old.items }
    requires found { AreFound told.old lines.old.items }
    ensures lines { lines.new.items ≡ take mark lines.old.items }
    ensures found { AreFound told.new lines.new.items }
{
    'behind: while lines.len() > mark {
        let_go_last(lines, told);
    }
}
