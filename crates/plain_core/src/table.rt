//! Which stretches of a line there are.

ghost use Rattle.std.specs.Prelude.{◌≡◌, ℕ, ◌+◌, ◌<◌, ◌≤◌, [], Bool, suc, length, slice_index_or, false, IfOk, IfErr};
ghost use Rattle.plain_core.specs.inner.Table.{at, IsTable, leaf, joined, repeats};
ghost use Rattle.bre_core.specs.{Search.{any_below, has_parts, is_at_most}, declared.fault.BreFault.TheVariants.Memory};

use bre_core::{BreFault, Token};
use std::alloc::Global;
use std::marker::Model;

/// The places where a stretch may end, as one flag for each place of the line.
#[derive(Drop)]
struct Row {
    flags: Vec<bool>,
}

impl Model for Row {
    ghost use Rattle.std.specs.Prelude.{List, Bool};

    ghost Value = { List Bool };

    ghost view = { λ r. r.flags.items };
}

/// Stretches of a line: for each place where one may begin, the places where it may end.
#[derive(Drop)]
pub struct Table {
    rows: Vec<Row>,
}

impl Model for Table {
    ghost use Rattle.std.specs.Prelude.{List, Bool};

    ghost Value = { List (List Bool) };

    ghost view = { λ t. t.rows.items };
}

/// Whether the stretch of a token leads from one place to another; that of `Open` is the empty concatenation after it.
fn leaf_at(token: &Token, line: &[u8], from: usize, to: usize) -> bool
    ensures { result ≡ leaf token.now line.now from to }
{
    match token {
        Token::Set(set) => from < line.len() && to == from + 1 && set.contains(line[from]),
        Token::Front => from == 0 && to == 0,
        Token::End => from == line.len() && to == line.len(),
        Token::Open | Token::Close | Token::Repeat(_, _) => from == to,
    }
}

/// Whether a stretch of the first table and then a stretch of the second lead from one place to another.
fn joined_at(first: &Table, second: &Table, from: usize, to: usize) -> bool
    ensures { result ≡ joined (at first.now) (at second.now) from to }
{
    let mut found = false;
    for middle in 0..to {
        found |= first.at(from, middle) && second.at(middle, to);
    }
    found || first.at(from, to) && second.at(to, to)
}

/// Whether a number is within its bound, if there is a bound.
fn is_at_most(high: Option<u8>, count: usize) -> bool
    ensures { result ≡ is_at_most high count }
{
    match high {
        Some(high) => count <= high as usize,
        None => true,
    }
}

/// Whether as many parts as are asked for lead from one place to another: `runs` has the stretches of each number of parts.
fn repeated_at(runs: &[Table], low: u8, high: Option<u8>, from: usize, to: usize) -> bool
    requires { low + to < length runs.now }
    ensures { result ≡ repeats (λ count. at (slice_index_or runs.now count [])) low high from to }
{
    let mut found = false;
    for count in 0..low as usize + to + 1 {
        found |= low as usize <= count && is_at_most(high, count) && runs[count].at(from, to);
    }
    found
}

/// The flags of one row: for which places a test is true.
fn row_of<F: Fn(usize, usize) -> bool>(
    alloc: Global,
    line: &[u8],
    from: usize,
    test: &F,
) -> Result<Row, BreFault>
    requires { (to : ℕ) → to ≤ length line.now → F.pre test.now from to }
    ensures ok { IfOk result (λ row. (to : ℕ) → to ≤ length line.now
        → F.post test.now from to (slice_index_or row to false)) }
    ensures err { IfErr result (λ fault. fault ≡ Memory) }
{
    let mut flags = Vec::new(alloc);
    for to in 0..line.len() + 1 {
        flags.push(test(from, to))?;
    }
    Ok(Row { flags })
}

/// The stretches of a line of which a test holds.
fn table_of<F: Fn(usize, usize) -> bool>(
    alloc: Global,
    line: &[u8],
    test: F,
) -> Result<Table, BreFault>
    requires { (from to : ℕ) → from ≤ length line.now → to ≤ length line.now → F.pre test from to }
    ensures ok { IfOk result (λ rows. (from to : ℕ) → from ≤ length line.now → to ≤ length line.now
        → F.post test from to (at rows from to)) }
    ensures err { IfErr result (λ fault. fault ≡ Memory) }
{
    let mut rows = Vec::new(alloc);
    for from in 0..line.len() + 1 {
        rows.push(row_of(alloc, line, from, &test)?)?;
    }
    Ok(Table { rows })
}

impl Table {
    /// Whether a stretch leads from one place to another.
    fn at(&self, from: usize, to: usize) -> bool
        ensures { result ≡ at self.now from to }
    {
        match self.rows.get(from) {
            Some(row) => to < row.flags.len() && row.flags[to],
            None => false,
        }
    }

    /// The stretches of one token.
    pub fn of_token(alloc: Global, token: &Token, line: &[u8]) -> Result<Table, BreFault>
        ensures ok { IfOk result (IsTable (length line.now) (leaf token.now line.now)) }
        ensures err { IfErr result (λ fault. fault ≡ Memory) }
    {
        Ok(table_of(alloc, line, |from, to| leaf_at(token, line, from, to))?)
    }

    /// These stretches, each followed by a stretch of another table.
    pub fn with_after(&self, alloc: Global, line: &[u8], item: &Table) -> Result<Table, BreFault>
        ensures ok { (first second : ℕ → ℕ → Bool) → IsTable (length line.now) first self.now
            → IsTable (length line.now) second item.now
            → IfOk result (IsTable (length line.now) (joined first second)) }
        ensures err { IfErr result (λ fault. fault ≡ Memory) }
    {
        Ok(table_of(alloc, line, |from, to| joined_at(self, item, from, to))?)
    }

    /// These stretches from low to high times, or at least low times if high is `None`.
    pub fn repeated(
        &self,
        alloc: Global,
        line: &[u8],
        low: u8,
        high: Option<u8>,
    ) -> Result<Table, BreFault>
        ensures ok { (part : ℕ → ℕ → Bool) → IsTable (length line.now) part self.now
            → IfOk result (IsTable (length line.now) (repeats (has_parts part) low high)) }
        ensures err { IfErr result (λ fault. fault ≡ Memory) }
    {
        let mut runs = Vec::new(alloc);
        runs.push(Table::of_token(alloc, &Token::Open, line)?)?;
        for count in 0..low as usize + line.len() {
            let next = runs[count].with_after(alloc, line, self)?;
            runs.push(next)?;
        }
        let runs = runs.as_slice();
        Ok(table_of(
            alloc,
            line,
            |from, to| repeated_at(runs, low, high, from, to),
        )?)
    }

    /// Whether any stretch ends at a place.
    fn has_end(&self, to: usize) -> bool
        ensures { result ≡ any_below (suc to) (λ from. at self.now from to) }
    {
        let mut found = false;
        for from in 0..to {
            found |= self.at(from, to);
        }
        found || self.at(to, to)
    }

    /// Whether there is any stretch.
    pub fn has_any(&self, line: &[u8]) -> bool
        ensures { result ≡ any_below (suc (length line.now)) (λ to. any_below (suc to) (λ from. at self.now from to)) }
    {
        let mut found = false;
        for to in 0..line.len() {
            found |= self.has_end(to);
        }
        found || self.has_end(line.len())
    }
}
