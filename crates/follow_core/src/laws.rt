//! Laws of the definitions, with no code: each stands on the contract of a function whose body is empty.
ghost use Rattle.std.specs.Prelude.{◌≡◌, ◌≤◌, ◌++◌, ◌∷◌, [], ℕ, List, Bool, true, None, Some};
ghost use Rattle.ports_core.specs.{
  Text.line_of,
  declared.{
    calling.Calling.TheVariants.Cutters,
    fault.Fault.TheVariants.{Open, Read},
    reason.Reason.TheVariants.Other,
  },
};
ghost use Rattle.watch_core.specs.{Edits.{Edit}, Snapshot.{Snapshot, clinging}};
ghost use Rattle.follow_core.specs.{
  Version.Entry,
  Run.{AreKept, name_text},
  Event.Event,
  Gain.gains_after,
  Look.{Fate, Look, Ways, entries_in, failed_in, is_dropped},
  Reading.{AllInsist, AreAtLook, AreFound, CallsFind, LeadsNowhere, NoneBreaks, OfEachName},
  Share.{Share, gain, gains_from, given_at, shares_at_look, shares_of, text_in},
  Followed.{followed, followed_at, followed_both},
  Placing.Agree,
  Notice.notice_of,
  Telling.{failure_message, tail_by},
  declared.notice.Notice.Notice,
};

/// What one look more gives. The text and the messages are those of the looks before, and then those of this look, in
/// the order of the names. The status is 1 if it was 1 before or a name fails at this look.
pub fn one_look_more()
    ensures { (ways : Ways) (headers : Bool) (names : List (List ℕ)) (looks : List Look) (look : Look)
        → followed ways headers names (looks ++ look ∷ [])
        ≡ followed_both (followed ways headers names looks) (followed_at ways headers names looks look) }
{}

/// The text of a name only grows, if files that are appended to keep their bytes. What further entries add stands after
/// the text of the entries before, and each entry adds what it has that the entry before it lacks. What a look gives
/// stands after the text so far, and what all looks give is the text.
pub fn text_goes_on()
    ensures entries { (start : List ℕ → List ℕ) (before more : List Entry) → AreKept (before ++ more)
        → name_text start (before ++ more) ≡ name_text start before ++ gains_after start before more }
    ensures look { (ways : Ways) (name : List ℕ) (before : List Look) (look : Look)
        → AreKept (entries_in ways name (before ++ look ∷ []))
        → text_in ways name (before ++ look ∷ []) ≡ text_in ways name before ++ gain ways name before look }
    ensures looks { (ways : Ways) (name : List ℕ) (looks : List Look) → AreKept (entries_in ways name looks)
        → gains_from ways name [] looks ≡ text_in ways name looks }
{}

/// Looks don't matter. Two placings of looks among the same edits give the same text of each name, if the first look
/// stands after the same edits, each look sees all that the edits before it do, and files that are appended to keep
/// their bytes. That is also true if a name that can't be opened or read counts as missing.
pub fn looks_agree()
    ensures { (forgives : Bool) (start : List ℕ → List ℕ) (by_name : Bool) (name : List ℕ) (first : List Edit)
        (one other : List (List Edit)) → Agree forgives start by_name name first one other }
{}

/// If what looks see is visible, their snapshots and visits decide all that they give: text, messages and status follow.
/// That is also true of the first names of a look that was stopped.
pub fn snapshots_decide()
    ensures looks { (ways : Ways) (names : List (List ℕ)) (looks : List Look) (shares : List Share)
        → AreFound true ways names looks shares → shares ≡ shares_of ways names looks }
    ensures stopped { (ways : Ways) (names : List (List ℕ)) (looks : List Look) (look : Look) (shares : List Share)
        → AreAtLook true ways looks look ways.first names shares → shares ≡ shares_at_look ways names looks look }
{}

/// If what calls on a name find is visible, it is what `share_of` gives, and nothing else.
pub fn calls_find_the_share()
    ensures { (ways : Ways) (name : List ℕ) (before : List Look) (look : Look) (fate : Fate) (events : List Event)
        → CallsFind ways name before look (Some fate) events → events ≡ given_at ways name before look fate }
{}

/// A name on which no call can fail isn't dropped: no call on it failed in these looks.
pub fn forgiven_names_stay()
    ensures { (visible : Bool) (ways : Ways) (names : List (List ℕ)) (looks : List Look)
        → OfEachName visible ways names looks (λ number name. NoneBreaks name looks → failed_in number looks ≡ None) }
{}

/// If names are followed as long as they lead to a file, each look insists. Then a name that leads nowhere at one of
/// the looks is dropped: a call on it failed.
pub fn missing_names_are_dropped()
    ensures { (ways : Ways) (names : List (List ℕ)) (looks : List Look) → ways.by_name ≡ true → AllInsist looks
        → OfEachName true ways names looks (λ number name. LeadsNowhere name looks → is_dropped number looks ≡ true) }
{}

/// If looks cling, a name that led to a file leads to this file at each later look. A call on the name can still fail;
/// then the name is dropped.
pub fn first_files_stay()
    ensures { (shows : ℕ → Snapshot) (name : List ℕ) (file n later : ℕ) → n ≤ later
        → (clinging shows n).leads name ≡ Some file → (clinging shows later).leads name ≡ Some file }
{}

/// A line about what a look found is never the line of a failure by `cutters`, which has no reason.
pub fn notices_are_no_failures()
    ensures open { (notice : Notice) (name other : List ℕ)
        → notice_of notice name ≡ line_of (tail_by Cutters) Other (failure_message (Open 0) other) → ⊥ }
    ensures read { (notice : Notice) (name other : List ℕ)
        → notice_of notice name ≡ line_of (tail_by Cutters) Other (failure_message (Read 0) other) → ⊥ }
{}
