//! Building a pattern's table ahead: set by set and byte by byte, as far as there is room.

ghost use Rattle.std.specs.{
  Prelude.{◌≡◌, ◌↔◌, ◌<◌, ◌≤◌, ◌+◌, ◌*◌, ◌/◌, ◌%◌, ℕ, List, Bool, IsTrue, IsFalse, IfOk, IfErr, IfSome, [], length},
  Prelude.slice_index_or,
};
ghost use Rattle.bre_core.specs.{declared.fault.BreFault.TheVariants.Memory, ByteSet.has};
ghost use Rattle.scan_core.specs.{
  declared.node.Node.TheVariants.Take,
  inner.{
    Built.{AreAlike, IsBuilding, IsOpen, LeadsTo, Led},
    Closures.AreClosures,
    Each.AreEach,
    Sets.IsCode,
    Table.{Next, entry, no_state, IsState, IsTable},
    Words.{IsIn, IsMasks, flags_of, width},
  },
};

use crate::closing::spread;
use crate::closures::Closures;
use crate::masks::Masks;
use crate::node::Node;
use crate::table::{STOP, State, Table, UNKNOWN};
use crate::words::{has, pass, positions};
use crate::worklist::{begun_of, spread_all};
use bre_core::BreFault;
use std::alloc::Global;
use std::marker::Model;

/// The most nodes of a code that has a table.
const MOST_NODES: usize = 8_191;

/// The most sets of a table.
const MOST_SETS: usize = 4096;

/// The most flags that the sets of a table may have together.
const MOST_FLAGS: usize = 131_072;

/// A set as words, with a number in which most other sets differ from it: so few sets are compared word by word.
#[derive(Drop)]
pub struct Marks {
    key: u64,
    words: Vec<u64>,
}

impl Model for Marks {
    ghost use Rattle.std.specs.Prelude.{List, Bool};
    ghost use Rattle.scan_core.specs.inner.Words.{flags_of};

    ghost Value = { List Bool };

    ghost view = { λ m. flags_of m.words.items };
}

/// A table that is being built.
#[derive(Drop)]
pub struct Building {
    sets: Vec<Marks>,
    rows: Vec<u16>,
    /// Room for a set.
    words: Vec<u64>,
}

/// The number of a set's words.
fn key_of(words: &[u64]) -> u64 {
    let mut key: u64 = 0;
    for word in words {
        key = key.wrapping_mul(31).wrapping_add(*word);
    }
    key
}

/// Where a set is among others, if it is found.
fn find(sets: &[Marks], key: u64, words: &[u64]) -> Option<usize>
    ensures within { IfSome result (λ place. place < length sets.now) }
    ensures exact { IfSome result (λ place. slice_index_or sets.now place [] ≡ flags_of words.now) }
{
    for i in 0..sets.len() {
        let set = &sets[i];
        if set.key == key && set.words.as_slice() == words {
            return Some(i);
        }
    }
    None
}

/// The entry that leads to a set: it is added to the others if there is room.
fn lead_to(
    alloc: Global,
    sets: &mut Vec<Marks>,
    words: &[u64],
    end: usize,
    most: usize,
) -> Result<u16, BreFault>
    requires most { most < 65534 }
    requires room { length sets.old.items ≤ most }
    requires end { end < 64 * length words.now }
    ensures ok { IfOk result (LeadsTo end most words.now sets.old.items sets.new.items) }
    ensures err { IfErr result (λ fault. fault ≡ Memory) }
{
    if has(words, end) {
        return Ok(STOP);
    }
    let key = key_of(words);
    if let Some(place) = find(sets, key, words) {
        return Ok(place as u16);
    }
    if sets.len() >= most {
        return Ok(UNKNOWN);
    }
    let place = sets.len() as u16;
    let words = Vec::from_slice(alloc, words)?;
    sets.push(Marks { key, words })?;
    Ok(place)
}

/// Whether a node takes one of two bytes and not the other.
fn tells_apart(node: &Node, one: u8, other: u8) -> bool
    ensures { IsFalse result → (bytes : List Bool) → node.now ≡ Take bytes → has bytes one ≡ has bytes other }
{
    match node {
        Node::Take(set) => set.contains(one) != set.contains(other),
        Node::First | Node::Last | Node::Choose(_) | Node::Back(_) => false,
    }
}

/// Whether every node takes both of two bytes or neither.
fn are_alike(nodes: &[Node], one: u8, other: u8) -> bool
    ensures { IsTrue result → AreAlike nodes.now one other }
{
    for number in 0..nodes.len() {
        if tells_apart(&nodes[number], one, other) {
            return false;
        }
    }
    true
}

/// The first byte that each node treats as it does this byte.
fn twin_of(nodes: &[Node], byte: u8) -> u8
    ensures { AreAlike nodes.now byte result }
{
    for other in 0..byte {
        if are_alike(nodes, byte, other) {
            return other;
        }
    }
    byte
}

/// For each byte the first that each node treats alike.
fn twins_of(alloc: Global, nodes: &[Node]) -> Result<Vec<u8>, BreFault>
    ensures ok { IfOk result (λ twins. AreEach 0 (AreAlike nodes.now) 256 twins.items) }
    ensures err { IfErr result (λ fault. fault ≡ Memory) }
{
    let mut twins = Vec::new(alloc);
    for byte in 0..256u16 {
        twins.push(twin_of(nodes, byte as u8))?;
    }
    Ok(twins)
}

/// Whether every byte leads from a state back to it.
fn is_fixed(rows: &[u16], state: usize) -> bool
    requires { state * 256 + 256 ≤ length rows.now }
    ensures { IsTrue result → (byte : ℕ) → byte < 256 → entry rows.now state byte ≡ state }
{
    for byte in 0..256 {
        if rows[state * 256 + byte] as usize != state {
            return false;
        }
    }
    true
}

/// Makes of a set what a byte, and then none, leads to from it, the search having begun once more.
fn advance(words: &mut [u64], nodes: &[Node], masks: &Masks, closures: &Closures, byte: u8)
    requires code { IsCode nodes.now }
    requires masks { IsMasks nodes.now masks.now }
    requires closures { AreClosures nodes.now closures.now }
    requires size { length words.old ≡ width nodes.now }
    ensures size { length words.new ≡ length words.old }
    ensures exact { (number : ℕ) → IsIn words.new number ↔ Next nodes.now byte (IsIn words.old) number }
{
    pass(words, nodes, &closures.base, &masks.takes, byte);
    spread(words, nodes, closures, false, false);
}

impl Building {
    /// The set of the front of a line that isn't empty; none if the pattern's end is in it.
    fn begin(alloc: Global, nodes: &[Node], most: usize) -> Result<Option<Building>, BreFault>
        requires most { 0 < most }
        requires code { IsCode nodes.now }
        ensures ok { IfOk result (λ begun. IfSome begun (IsBuilding nodes.now most 0)) }
        ensures err { IfErr result (λ fault. fault ≡ Memory) }
    {
        let words = begun_of(alloc, nodes, true)?;
        if has(&words, nodes.len()) {
            return Ok(None);
        }
        let key = key_of(&words);
        let front = Vec::from_slice(alloc, &words)?;
        let mut sets = Vec::new(alloc);
        sets.push(Marks { key, words: front })?;
        Ok(Some(Building {
            sets,
            rows: Vec::new(alloc),
            words,
        }))
    }

    /// The entry at a place of the rows: that of the byte's twin, or what the byte leads to.
    fn entry_of(
        &mut self,
        alloc: Global,
        nodes: &[Node],
        masks: &Masks,
        closures: &Closures,
        twin: u8,
        place: usize,
        most: usize,
    ) -> Result<u16, BreFault>
        requires so_far { IsBuilding nodes.now most place self.old }
        requires known { place / 256 < length self.old.sets.items }
        requires twin { AreAlike nodes.now (place % 256) twin }
        requires most { most < 65534 }
        requires code { IsCode nodes.now }
        requires masks { IsMasks nodes.now masks.now }
        requires closures { AreClosures nodes.now closures.now }
        ensures ok { IfOk result (Led nodes.now most place self.new) }
        ensures err { IfErr result (λ fault. fault ≡ Memory) }
    {
        let state = place / 256;
        let byte = (place % 256) as u8;
        if twin < byte {
            return Ok(self.rows[state * 256 + twin as usize]);
        }
        let set = &self.sets[state];
        self.words.copy_from_slice(&set.words);
        advance(&mut self.words, nodes, masks, closures, byte);
        lead_to(alloc, &mut self.sets, &self.words, nodes.len(), most)
    }
}

/// What is noted of a state. `words` is room for a set.
fn state_of(
    words: &mut [u64],
    sets: &[Marks],
    rows: &[u16],
    nodes: &[Node],
    masks: &Masks,
    state: usize,
) -> State
    requires size { length words.old ≡ width nodes.now }
    requires sets { AreEach [] (λ _. IsOpen nodes.now) (length sets.now) sets.now }
    requires state { state < length sets.now }
    requires rows { state * 256 + 256 ≤ length rows.now }
    requires code { IsCode nodes.now }
    requires masks { IsMasks nodes.now masks.now }
    ensures size { length words.new ≡ length words.old }
    ensures noted { IsState nodes.now sets.now rows.now state result }
{
    let set = &sets[state];
    words.copy_from_slice(&set.words);
    let count = positions(words, nodes, &masks.counts);
    spread_all(words, nodes, false, true);
    State {
        positions: count,
        last_positions: positions(words, nodes, &masks.counts),
        ends: has(words, nodes.len()),
        is_fixed: is_fixed(rows, state),
    }
}

/// What is noted of each state. `words` is room for a set.
fn states_of(
    alloc: Global,
    words: &mut [u64],
    sets: &[Marks],
    rows: &[u16],
    nodes: &[Node],
    masks: &Masks,
) -> Result<Vec<State>, BreFault>
    requires size { length words.old ≡ width nodes.now }
    requires sets { AreEach [] (λ _. IsOpen nodes.now) (length sets.now) sets.now }
    requires rows { length rows.now ≡ length sets.now * 256 }
    requires code { IsCode nodes.now }
    requires masks { IsMasks nodes.now masks.now }
    ensures ok { IfOk result (λ states. AreEach no_state (IsState nodes.now sets.now rows.now)
        (length sets.now) states.items) }
    ensures err { IfErr result (λ fault. fault ≡ Memory) }
{
    let mut states = Vec::new(alloc);
    for state in 0..sets.len() {
        let noted = state_of(words, sets, rows, nodes, masks, state);
        states.push(noted)?;
    }
    Ok(states)
}

/// The table of a code: none if the pattern's end is entered at the front of each line, or if the code is long. The masks and closures are
/// those of these nodes.
///
/// It has up to 4,096 sets, or fewer if the code is long, with 512 bytes of entries for each, and its state.
pub fn build(
    alloc: Global,
    nodes: &[Node],
    masks: &Masks,
    closures: &Closures,
) -> Result<Option<Table>, BreFault>
    requires code { IsCode nodes.now }
    requires masks { IsMasks nodes.now masks.now }
    requires closures { AreClosures nodes.now closures.now }
    ensures ok { IfOk result (λ made. IfSome made (IsTable nodes.now)) }
    ensures err { IfErr result (λ fault. fault ≡ Memory) }
{
    if nodes.len() > MOST_NODES {
        return Ok(None);
    }
    let most = MOST_SETS.min(MOST_FLAGS / (nodes.len() + 1));
    let twins = twins_of(alloc, nodes)?;
    let Some(mut building) = Building::begin(alloc, nodes, most)? else {
        return Ok(None);
    };
    for place in 0..most * 256 {
        if place / 256 >= building.sets.len() {
            break;
        }
        let twin = twins[place % 256];
        let read = building.entry_of(alloc, nodes, masks, closures, twin, place, most)?;
        building.rows.push(read)?;
    }
    let states = states_of(
        alloc,
        &mut building.words,
        &building.sets,
        &building.rows,
        nodes,
        masks,
    )?;
    let rows = building.rows;
    Ok(Some(Table { rows, states }))
}
