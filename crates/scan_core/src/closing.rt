//! Entering all that follows without a byte, as it was made ready: each word is closed by itself, and then the hops are
//! followed.

ghost use Rattle.std.specs.Prelude.{◌≡◌, ℕ, false, length};
ghost use Rattle.scan_core.specs.inner.{
  Closing.{Follows, FollowsFirst, IsApart, LandsFirst},
  Closures.AreClosures,
  Hops.{AreLandings, IsHop},
  Sets.IsCode,
  Words.{Adds, IsIn, SpreadsOut, width},
};

use crate::closures::{Closures, looked_up};
use crate::hops::Hop;
use crate::node::Node;
use crate::worklist::spread_all;

/// Closes each word, as far as the word itself goes. The base is in the set.
#[inline(always)]
fn close_words(words: &mut [u64], nodes: &[Node], closures: &Closures)
    requires size { length words.old ≡ width nodes.now }
    requires closures { AreClosures nodes.now closures.now }
    requires begun { (number : ℕ) → IsIn closures.now.base.items number → IsIn words.old number }
    ensures adds { Adds nodes.now false false words.old words.new }
    ensures apart { IsApart nodes.now closures.now.hops words.new }
{
    for at in 0..words.len() {
        let word = words[at];
        if word & closures.leads[at] != 0 {
            words[at] = looked_up(&closures.inside, nodes, at, word);
        }
    }
}

/// Enters what a hop leads to, and closes its word again if that is new. Returns 0 if it isn't.
#[inline(always)]
fn follow(words: &mut [u64], nodes: &[Node], closures: &Closures, hop: &Hop) -> u64
    requires size { length words.old ≡ width nodes.now }
    requires closures { AreClosures nodes.now closures.now }
    requires hop { IsHop nodes.now hop.now }
    requires begun { (number : ℕ) → IsIn closures.now.base.items number → IsIn words.old number }
    requires apart { IsApart nodes.now closures.now.hops words.old }
    ensures { Follows nodes.now closures.now hop.now words.old words.new result }
{
    let is_led = words[hop.at] & hop.from != 0;
    let word = words[hop.word];
    let all = word | ((is_led as u64) << hop.bit);
    words[hop.word] = all;
    let led = all & !word;
    if led != 0 {
        words[hop.word] = looked_up(&closures.inside, nodes, hop.word, all);
    }
    led
}

/// Follows all hops to numbers that lead on. Returns 0 if nothing is missing then but what the landings lead to.
#[inline(always)]
fn follow_all(words: &mut [u64], nodes: &[Node], closures: &Closures) -> u64
    requires size { length words.old ≡ width nodes.now }
    requires closures { AreClosures nodes.now closures.now }
    requires begun { (number : ℕ) → IsIn closures.now.base.items number → IsIn words.old number }
    requires apart { IsApart nodes.now closures.now.hops words.old }
    ensures { FollowsFirst nodes.now closures.now words.old words.new (length closures.now.hops.onward.items) result }
{
    let mut over = 0;
    for place in 0..closures.hops.onward.len() {
        let hop = &closures.hops.onward[place];
        over |= follow(words, nodes, closures, hop);
    }
    over
}

/// Enters what all landings lead to, without a jump.
#[inline(always)]
fn land(words: &mut [u64], nodes: &[Node], base: &[u64], landings: &[Hop])
    requires size { length words.old ≡ width nodes.now }
    requires landings { AreLandings nodes.now base.now landings.now }
    ensures { LandsFirst nodes.now base.now landings.now words.old words.new (length landings.now) }
{
    for place in 0..landings.len() {
        let hop = &landings[place];
        let is_led = words[hop.at] & hop.from != 0;
        words[hop.word] |= (is_led as u64) << hop.bit;
    }
}

/// Enters all that a set leads to at any place, without a byte. The base is in the set.
#[inline(always)]
fn spread_anywhere(words: &mut [u64], nodes: &[Node], closures: &Closures)
    requires size { length words.old ≡ width nodes.now }
    requires closures { AreClosures nodes.now closures.now }
    requires begun { (number : ℕ) → IsIn closures.now.base.items number → IsIn words.old number }
    ensures { SpreadsOut nodes.now false false words.old words.new }
{
    close_words(words, nodes, closures);
    let mut over = 1;
    'passes: while over != 0 {
        over = follow_all(words, nodes, closures);
    }
    land(words, nodes, &closures.base, &closures.hops.landings);
}

/// Enters all that a set leads to at one place, without a byte. The base is in the set.
#[inline(always)]
pub fn spread(words: &mut [u64], nodes: &[Node], closures: &Closures, at_first: bool, at_last: bool)
    requires code { IsCode nodes.now }
    requires size { length words.old ≡ width nodes.now }
    requires closures { AreClosures nodes.now closures.now }
    requires begun { (number : ℕ) → IsIn closures.now.base.items number → IsIn words.old number }
    ensures { SpreadsOut nodes.now at_first at_last words.old words.new }
{
    spread_anywhere(words, nodes, closures);
    if !closures.is_anchored {
        return;
    }
    if at_first || at_last {
        spread_all(words, nodes, at_first, at_last);
    }
}
