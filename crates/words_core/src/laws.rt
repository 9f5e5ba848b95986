//! Laws of what words spell and ask for, with no code: each stands on the contract of a function whose body is empty.
ghost use Rattle.std.specs.{
  Prelude.{◌≡◌, ◌≢◌, ◌↔◌, ◌+◌, ◌-◌, ◌*◌, ◌^◌, ◌≤◌, ◌<◌, ◌==◌, ◌++◌, ℕ, List, [], ◌∷◌, All, Some, None, Ok, Err, IsOk},
  Prelude.{true, false, length, max, filter, codes, if◌then◌else◌, slice_get, ◌⊎◌},
  List.Contains,
};
ghost use Rattle.ports_core.specs.declared.fault.UsageKind.{
  UsageKind,
  TheVariants.{AmbiguousOption, BadFollow, BadMode, MissingValue, NumberTooLarge, SuffixTooShort, TwoWays, UnknownOption},
};
ghost use Rattle.words_core.specs.{
  declared.{
    spelling.State.TheVariants.Reading,
    table.Letters.TheVariants.{OfHead, OfTail},
  },
  Called.{IsCalled, calling_of, words_of},
  Given.{Given, asked_by, one_operand, one_option},
  Division.{division_in, way_of_division},
  Choice.{choice_in, seen},
  CsplitWords.{chosen_by, decimal_form, style_of},
  Format.format_in,
  Laws.{AskTheSame, GivesBefore, IsOrdinary, MayHave, MeansLetters, NamesFiles, Numbered, RefusedToFollow, Start},
  Laws.{first_state, spelled_from},
  Laws.{AreAlike, AreAmong, AreNames, CsplitAsks, EndsAsk, FollowAsks, Gives, HasLetters, IsLetter, IsLong, IsParted},
  Laws.{IsNumberWithLetters, IsSwitch, IsTold, LastDecides, LeaveTheRest, MeanTheSame, NumberAsks, OnBrokenAsks},
  Laws.{AreCutShort, RefusedAsShort, RefusedBut, SplitAsks, StartAsks, TeeAsks, amount_of, appends, as_operands},
  Laws.{as_wide, begin_with_start, by_own_name, counts, counts_looks, counts_pause, drops_sizes, elides_files},
  Laws.{ends_with_zero, following, fresh_file, gives_ending},
  Laws.{gives_format, has, heads, is_plain, keeps_files, leave_open, leaves_lines_out, names_prefix},
  Laws.{names_process, plain_style, retries, says_followed, says_on_broken, separates, spells, tells_of_files},
  Laws.{ten_of_input, thousands, widens},
  EndsWords.{ends_of, ten_lines},
  Lettered.{is_lettered, is_start, times, unit_in, unit_of},
  SplitWords.{SplitAsked, is_way, least_width, split_asked, split_of, way_in, way_of, separator_in},
  Spelling.{count_and_options, given_before, mixed, spelled, with_letters},
  Table.{OptionRow, alone, beginning, begins_one, head_table, option_called, option_named, tail_table, tools},
  TailWords.{retry_by, tail_of, unfollowed},
  TeeWords.{tee_asked, tee_of},
  Value.{byte_in, counted, ending_in, follow_values, hex_in, on_broken_values, pause_in, size_in, up_to},
  Words.{settings_of, tool_named},
};
ghost use Rattle.seg_core.specs.{
  Count.{count_of, digits_of, is_number, sized, value_of},
};

use crate::choice::{Choice, Kind};
use crate::division::Division;
use crate::format::Format;
use crate::settings::{Headers, Settings, Topic};
use crate::spelled::Chosen;
use crate::table::Takes;
use crate::value::Followed;
use ports_core::{Alphabet, Base, Calling, Fault, Filling, Mode, OnBroken, Tool};
use seg_core::count::{Count, Sign};
use seg_core::cut::{Cut, Limit, Way};
use seg_core::unit::Unit;

/// If the arguments are one list, the first argument says how the program is called, and the others are its words: in
/// their order, none left out and none twice.
pub fn words_are_the_arguments()
    ensures { (arguments words : List (List ℕ)) (calling : Calling)
        → IsCalled (λ place found. found ≡ slice_get arguments place) calling words
        → (calling ≡ calling_of arguments) × (words ≡ words_of arguments) }
{}

/// If `head` or `tail` gets several counts, the last decides, as if it stood alone, whatever options stand before it.
/// The last option for headers decides, too. Other options change neither (POSIX.1-2017, XBD 12.2, guideline 11, leaves
/// this to the tool). Options ask the same of `head` and of what `tail` writes of each input at first.
pub fn last_of_ends_decides()
    ensures counts { (names : List (List ℕ))
        → LastDecides counts (λ options. amount_of (ends_of names options)) (amount_of (ends_of names [])) }
    ensures headers { (names : List (List ℕ))
        → LastDecides heads (λ options. (ends_of names options).headers) (ends_of names []).headers }
    ensures tail { (names : List (List ℕ)) (options : List Chosen)
        → (tail_of names options).ends ≡ ends_of names options }
{}

/// If several options say what `tail` follows, the last decides, as if it stood alone, whatever options stand before
/// it. The last number of looks, the last pause and the last process decide, too. A name that leads nowhere is looked
/// for again if any option says so.
pub fn last_of_tail_decides()
    ensures followed { (names : List (List ℕ))
        → LastDecides says_followed (λ options. (tail_of names options).followed) None }
    ensures looks { (names : List (List ℕ))
        → LastDecides counts_looks (λ options. (tail_of names options).looks) (2 ^ 63 - 1) }
    ensures pause { (names : List (List ℕ)) → LastDecides counts_pause (λ options. (tail_of names options).pause) 1000 }
    ensures process { (names : List (List ℕ))
        → LastDecides names_process (λ options. (tail_of names options).process) None }
    ensures retry { (options : List Chosen) → asked_by retry_by false options ≡ has retries options }
{}

/// If several options of `split` say which characters suffixes have, the last decides, as if it stood alone, whatever
/// options stand before it. It also decides about the number of the first file. The last width, the last byte that
/// lines end with and the last ending of names decide, too. Other options change none of these.
pub fn last_of_split_decides()
    ensures alphabet { LastDecides spells (λ options. (split_of options).alphabet) (split_of []).alphabet }
    ensures from { LastDecides spells (λ options. (split_of options).from) None }
    ensures width { LastDecides widens (λ options. (split_of options).width) (split_of []).width }
    ensures separator { LastDecides separates separator_in 10 }
    ensures ending { LastDecides gives_ending (λ options. (split_of options).ending) [] }
{}

/// If `csplit` gets several prefixes, the last decides, as if it stood alone, whatever options stand before it. The
/// last number of digits and the last format decide, too. With a format the number of digits has no effect. Without
/// these options the prefix is `xx`, and there are two digits.
pub fn last_of_csplit_decides()
    ensures prefix { LastDecides names_prefix (λ options. (chosen_by options).prefix.now) (codes "xx") }
    ensures digits { LastDecides widens (λ options. (chosen_by options).digits) 2 }
    ensures format { LastDecides gives_format (λ options. (chosen_by options).format) None }
    ensures plain { (options : List Chosen) → (chosen_by options).format ≡ None
        → NamesFiles (style_of options) (chosen_by options).prefix.now (decimal_form (chosen_by options).digits) [] }
    ensures formatted { (options : List Chosen) (format : Format) → (chosen_by options).format ≡ Some format
        → NamesFiles (style_of options) ((chosen_by options).prefix.now ++ format.before.now) format.form
        format.after.now }
{}

/// If several options of `tee` say what is done once an output is broken, the last decides, as if it stood alone,
/// whatever options stand before it. Without such an option `tee` goes on with the outputs that are left; by its own
/// name it ends with the first output whose reader is gone.
pub fn last_of_tee_decides()
    ensures on_broken { (names : List (List ℕ))
        → LastDecides says_on_broken (λ options. (tee_of Calling.Cutters names options).on_broken) OnBroken.Warn }
    ensures own_name { (names : List (List ℕ))
        → LastDecides says_on_broken (λ options. (tee_of Calling.OwnName names options).on_broken) OnBroken.Signal }
{}

/// An option that is taken without effect, with or without a value, changes nothing: the other options ask for what
/// they ask for without it. Such options are `-u` of `split` and `--max-unchanged-stats` of `tail`.
pub fn some_have_no_effect()
    ensures { (before after : List Chosen) (word : ℕ)
        → AskTheSame (before ++ record { choice = Choice.NoEffect; word = word } ∷ after) (before ++ after) }
{}

/// What an option without a value asks for is asked for exactly if the option is given, wherever it stands and however
/// often. This is said of options of `csplit` and `tee`, of `-e` and `--verbose` of `split`, and of `-z` of `head` and
/// `tail`. Without `-z` lines end with the newline.
pub fn options_stand_anywhere()
    ensures keep { (options : List Chosen) → (style_of options).keep ≡ has keeps_files options }
    ensures quiet { (options : List Chosen) → (style_of options).quiet ≡ has drops_sizes options }
    ensures elide { (options : List Chosen) → (style_of options).elide ≡ has elides_files options }
    ensures suppress { (options : List Chosen) → (style_of options).suppress ≡ has leaves_lines_out options }
    ensures leave_out { (options : List Chosen) → (split_of options).elide ≡ has elides_files options }
    ensures tell { (options : List Chosen) → (split_of options).verbose ≡ has tells_of_files options }
    ensures zero { (names : List (List ℕ)) (options : List Chosen)
        → (ends_of names options).delim ≡ (if has ends_with_zero options then 0 else 10) }
    ensures append { (calling : Calling) (given : Given)
        → ((tee_asked calling given).mode ≡ Mode.Append) ↔ (has appends given.options ≡ true) }
{}

/// Options for `split` are accepted exactly if at most one of them is a way to split; files are cut in that way. A
/// second way is reported at the word in which it stands, whatever follows it.
pub fn one_way_at_most()
    ensures accepted { (options : List Chosen) → IsOk (way_of options) ↔ (length (filter is_way options) ≤ 1) }
    ensures way { (before after : List Chosen) (option : Chosen) (way : Way) → is_way option ≡ true
        → way_of (before ++ option ∷ after) ≡ Ok way
        → way_in (separator_in (before ++ option ∷ after)) option.choice ≡ Some way }
    ensures second { (before after : List Chosen) (option : Chosen) → length (filter is_way before) ≡ 1
        → is_way option ≡ true → way_of (before ++ option ∷ after) ≡ Err (Fault.Usage TwoWays option.word) }
{}

/// Suffixes never widen if an option gives the number of the first file.
pub fn numbers_keep_their_width()
    ensures { (given : Given) (asked : SplitAsked) (from : ℕ) → split_asked given ≡ Ok asked → asked.from ≡ Some from
        → asked.auto ≡ false }
{}

/// If options may stand in the place of `--`, all words after it are operands, whatever they begin with (POSIX.1-2017,
/// XBD 12.2, guideline 10).
pub fn operands_follow_the_end()
    ensures { (rows : List OptionRow) (words : List (List ℕ)) (place : ℕ)
        → spelled rows (codes "--" ∷ words) place Reading
        ≡ Ok (record { options = []; operands = as_operands (place + 1) words }) }
{}

/// A long name in full is never read as the beginning of another name. A name that is cut short names the only option
/// of which a name begins with it. If names of two options begin with it, that is reported at its word, and if no name
/// does, the option is unknown. An option counts once, however many of its names begin with it (GNU's long options).
pub fn beginnings_are_of_one_option()
    ensures full { (rows : List OptionRow) (name : List ℕ) (option : Takes)
        → option_named rows name ≡ Some option → option_called rows name ≡ Ok option }
    ensures one { (rows : List OptionRow) (name : List ℕ) (option : Takes) → option_named rows name ≡ None
        → (option_called rows name ≡ Ok option)
        ↔ ((row : OptionRow) × (beginning rows name ≡ row ∷ []) × (row.takes ≡ option)) }
    ensures several { (rows : List OptionRow) (name : List ℕ) → (option_called rows name ≡ Err AmbiguousOption)
        ↔ ((option_named rows name ≡ None) × (2 ≤ length (beginning rows name))) }
    ensures unknown { (rows : List OptionRow) (name : List ℕ) → (option_called rows name ≡ Err UnknownOption)
        ↔ ((option_named rows name ≡ None) × (beginning rows name ≡ [])) }
    ensures begins { (row : OptionRow) (start : List ℕ) → (begins_one row.names start ≡ true)
        ↔ ((rest : List ℕ) × Contains row.names (start ++ rest)) }
    ensures told { (rows : List OptionRow) (name : List ℕ) (kind : UsageKind) (words : List (List ℕ)) (place : ℕ)
        → IsLong rows name (Err kind)
        → spelled rows ((codes "--" ++ name) ∷ words) place Reading ≡ Err (Fault.Usage kind place) }
{}

/// In each tool's table a name belongs to its own option and to no other, and all names of an option mean the same.
pub fn names_mean_the_same()
    ensures own { (calling : Calling)
        → All (λ tool. All (λ row. All (λ name. option_named tool.options name ≡ Some row.takes) row.names)
        tool.options) (tools calling) }
    ensures alike { (calling : Calling)
        → All (λ tool. All (λ row. AreAlike tool.options row.names) tool.options) (tools calling) }
{}

/// The value of an option is spelled in four ways: right after its letter, if the value isn't empty, or in the next
/// word; and after its long name and `=`, or in the next word. All four give the same option and value (POSIX.1-2017,
/// XBD 12.1; GNU's long options).
pub fn values_are_spelled_alike()
    ensures attached { (rows : List OptionRow) (letter : ℕ) (kind : Kind) (value : List ℕ) (choice : Choice)
        → IsLetter rows letter kind → value ≢ [] → choice_in kind value ≡ Ok choice
        → Gives rows Reading ((codes "-" ++ letter ∷ value) ∷ []) choice }
    ensures after_letter { (rows : List OptionRow) (letter : ℕ) (kind : Kind) (value : List ℕ) (choice : Choice)
        → IsLetter rows letter kind → choice_in kind value ≡ Ok choice
        → Gives rows Reading ((codes "-" ++ letter ∷ []) ∷ value ∷ []) choice }
    ensures after_equals { (rows : List OptionRow) (name : List ℕ) (takes : Takes) (value : List ℕ) (choice : Choice)
        → IsLong rows name (Ok takes) → MayHave takes value choice
        → Gives rows Reading ((codes "--" ++ (name ++ (codes "=" ++ value))) ∷ []) choice }
    ensures after_name { (rows : List OptionRow) (name : List ℕ) (kind : Kind) (value : List ℕ) (choice : Choice)
        → IsLong rows name (Ok (Takes.Value kind)) → choice_in kind value ≡ Ok choice
        → Gives rows Reading ((codes "--" ++ name) ∷ value ∷ []) choice }
{}

/// Letters in one word spell what they spell apart (POSIX.1-2017, XBD 12.2, guideline 5). A letter that takes no value
/// within a cluster gives its option. If other letters follow in its word, they are read as if they stood alone after a
/// hyphen; if not, the next words are read. A long name without a value gives its option in the same way.
pub fn letters_stand_together()
    ensures together { (rows : List OptionRow) (letter next : ℕ) (choice : Choice) (rest : List ℕ)
        → IsSwitch rows letter choice → next ≢ 45
        → GivesBefore rows (codes "-" ++ letter ∷ next ∷ rest) (codes "-" ++ next ∷ rest) (seen choice) }
    ensures apart { (rows : List OptionRow) (letter : ℕ) (choice : Choice) → IsSwitch rows letter choice
        → Gives rows Reading ((codes "-" ++ letter ∷ []) ∷ []) (seen choice) }
    ensures long { (rows : List OptionRow) (name : List ℕ) (takes : Takes) (choice : Choice)
        → IsLong rows name (Ok takes) → alone takes ≡ Some choice
        → Gives rows Reading ((codes "--" ++ name) ∷ []) (seen choice) }
{}

/// Options and operands may mix. A word that doesn't begin with a hyphen, or is a hyphen alone, is an operand wherever
/// options may stand, and options may stand after it (GNU's tools; POSIX.1-2017, XBD 12.2, guideline 9, wants options
/// first).
pub fn operands_may_mix()
    ensures { (rows : List OptionRow) (word : List ℕ) (words : List (List ℕ)) (place : ℕ) → is_plain word ≡ true
        → spelled rows (word ∷ words) place Reading
        ≡ given_before (one_operand word place) (spelled rows words (place + 1) Reading) }
{}

/// If several single words have faults, the fault of the leftmost word is reported. A fault among the first words is
/// reported whatever follows them, except a missing value, which is missing only if no word follows. If the first words
/// have no fault, the fault stands after them.
pub fn leftmost_fault_decides()
    ensures decides { (start : Start) (first more : List (List ℕ)) (kind : UsageKind) (word : ℕ)
        → spelled_from start first ≡ Err (Fault.Usage kind word) → kind ≢ MissingValue
        → spelled_from start (first ++ more) ≡ Err (Fault.Usage kind word) }
    ensures later { (start : Start) (first more : List (List ℕ)) (given : Given) (kind : UsageKind) (word : ℕ)
        → spelled_from start first ≡ Ok given → spelled_from start (first ++ more) ≡ Err (Fault.Usage kind word)
        → start.place + length first ≤ word }
{}

/// Words are read from the left, and what a word means depends only on the words before it. An option such as `--help`
/// ends the reading: whatever follows it gives nothing, even if it is wrong. So the option asks for its text, and the
/// words aren't checked together.
#[tactic(auto, unfolding(crate::specs::Spelling::foremost, crate::specs::Table::tools))]
pub fn reading_ends()
    ensures left { (start : Start) (first : List (List ℕ)) → LeaveTheRest start first }
    ensures last { (rows : List OptionRow) (name : List ℕ) (topic : Topic) (words : List (List ℕ)) (place : ℕ)
        → IsLong rows name (Ok (Takes.Last topic))
        → spelled rows ((codes "--" ++ name) ∷ words) place Reading ≡ Ok (one_option (Choice.About topic) place) }
    ensures head { IsTold (codes "head") Tool.Head }
    ensures tail { IsTold (codes "tail") Tool.Tail }
    ensures split { IsTold (codes "split") Tool.Split }
    ensures csplit { IsTold (codes "csplit") Tool.Csplit }
    ensures tee { IsTold (codes "tee") Tool.Tee }
    ensures program { (calling : Calling) (words : List (List ℕ))
        → (settings_of calling (codes "--help" ∷ words) ≡ Ok (Settings.About Tool.Cutters Topic.Help))
        × (settings_of calling (codes "--version" ∷ words) ≡ Ok (Settings.About Tool.Cutters Topic.Version)) }
{}

/// The operands are some of the words, in their order, each with its place.
pub fn operands_keep_their_order()
    ensures { (start : Start) (words : List (List ℕ)) (given : Given) → spelled_from start words ≡ Ok given
        → AreAmong given.operands start.place words }
{}

/// Three kinds of first words are read in another way than other words: a hyphen and digits, a hyphen and a number with
/// letters that the tool takes, and a `+` and what the tool takes after it. The first kind gives the option that the
/// tool has for a number, with the digits as its value. The others give what a number with letters asks for.
#[tactic(auto, unfolding(crate::specs::Spelling::foremost))]
pub fn number_comes_first()
    ensures other { (tool : Numbered) (byte : ℕ) (rest : List ℕ) (words : List (List ℕ)) (place : ℕ)
        → IsOrdinary tool byte rest → spelled tool.rows ((byte ∷ rest) ∷ words) place (first_state tool)
        ≡ spelled tool.rows ((byte ∷ rest) ∷ words) place Reading }
    ensures number { (tool : Numbered) (digits : List ℕ) (choice : Choice) → is_number digits ≡ true
        → choice_in tool.kind digits ≡ Ok choice
        → Gives tool.rows (first_state tool) ((codes "-" ++ digits) ∷ []) choice }
    ensures letters { (tool : Numbered) (text : List ℕ) → is_number text ≡ false
        → is_lettered tool.rows tool.letters text ≡ true → MeansLetters tool (codes "-" ++ text) Sign.Plain text }
    ensures start { (tool : Numbered) (text : List ℕ) → is_start tool.calling tool.rows tool.letters text ≡ true
        → MeansLetters tool (codes "+" ++ text) Sign.Plus text }
{}

/// A number with letters as the first word, also after a `+`, asks for a count: the number that its digits write, or
/// ten without digits, of the unit that one letter says, or of lines without such a letter. The other letters ask for
/// what they ask for after a hyphen. Each number with letters that is read has this form. For `head` each text of this
/// form that has digits is read.
#[tactic(auto, unfolding(crate::specs::Spelling::foremost, crate::specs::Table::tools))]
pub fn letters_ask()
    ensures asks { (rows : List OptionRow) (sign : Sign) (text digits letters : List ℕ) (place : ℕ)
        → IsParted text digits letters
        → with_letters rows sign place text ≡ count_and_options rows sign place digits letters }
    ensures count { (sign : Sign) (digits : List ℕ) (each : ℕ) → times sign digits each
        ≡ counted (sized sign ((if length digits == 0 then 10 else value_of digits) * each)) }
    ensures unit { (rows : List OptionRow) (text digits letters : List ℕ) (letter : ℕ) (unit : Unit × ℕ)
        → HasLetters rows text digits letters → Contains letters letter → unit_of letter ≡ Some unit
        → unit_in letters ≡ unit }
    ensures head { (text : List ℕ) → (is_lettered head_table OfHead text ≡ true)
        ↔ ((digits letters : List ℕ) × (digits ≢ []) × HasLetters head_table text digits letters) }
    ensures tail { (calling : Calling) (text : List ℕ) → is_lettered (tail_table calling) OfTail text ≡ true
        → IsNumberWithLetters (tail_table calling) text }
    ensures start { (text : List ℕ) → is_start Calling.OwnName (tail_table Calling.OwnName) OfTail text ≡ true
        → IsNumberWithLetters (tail_table Calling.OwnName) text }
    ensures several { (calling : Calling) → settings_of calling (codes "head" ∷ codes "-5cq" ∷ [])
        ≡ Ok (Settings.Head (record ten_of_input {
          unit = Unit.Bytes;
          count = record { sign = Sign.Plain; amount = 5 };
          headers = Headers.Never;
        })) }
    ensures followed { (calling : Calling) → settings_of calling (codes "tail" ∷ codes "-20bf" ∷ codes "f" ∷ [])
        ≡ Ok (Settings.Tail (record following {
          ends = record following.ends {
            unit = Unit.Bytes;
            count = record { sign = Sign.Plain; amount = 10240 };
          };
        })) }
    ensures blocks { (calling : Calling) → settings_of calling (codes "tail" ∷ codes "-b" ∷ [])
        ≡ Ok (Settings.Tail (unfollowed (record ten_of_input {
          unit = Unit.Bytes;
          count = record { sign = Sign.Plain; amount = 5120 };
        }))) }
{}

/// What words mean doesn't depend on how the program is called, with five exceptions: a first word of `tail` that is a
/// `+` and what may follow it; what may be followed with and without `--retry`, or beside standard input; how patterns
/// of `csplit` may be spelled, and whether they may cut one line past the last; what `tee` does once an output is
/// broken, if no option says it; and values of `--follow` and `--output-error` that are cut short, which `cutters`
/// refuses. Standard input may be followed only by `tail`'s own name, by the same settings: `followed_by` says so.
#[tactic(auto, unfolding(crate::specs::Spelling::foremost, crate::specs::Table::tools))]
pub fn callings_mean_the_same()
    ensures none { MeanTheSame [] }
    ensures unknown { (name : List ℕ) (words : List (List ℕ)) → tool_named name ≡ None → MeanTheSame (name ∷ words) }
    ensures head { (words : List (List ℕ)) → MeanTheSame (codes "head" ∷ words) }
    ensures tail { (words : List (List ℕ)) → begin_with_start words ≡ false → MeanTheSame (codes "tail" ∷ words)
        ⊎ RefusedToFollow (codes "tail" ∷ words) }
    ensures split { (words : List (List ℕ)) → MeanTheSame (codes "split" ∷ words) }
    ensures csplit { (words : List (List ℕ)) → settings_of Calling.OwnName (codes "csplit" ∷ words)
        ≡ by_own_name (settings_of Calling.Cutters (codes "csplit" ∷ words)) }
    ensures tee { (words : List (List ℕ)) → leave_open words ≡ false → MeanTheSame (codes "tee" ∷ words)
        ⊎ RefusedAsShort on_broken_values BadMode (codes "tee" ∷ words) }
    ensures left_open { (given : Given) → has says_on_broken given.options ≡ false
        → tee_asked Calling.OwnName given
        ≡ record (tee_asked Calling.Cutters given) { on_broken = OnBroken.Signal } }
{}

/// A value of `--follow` or `--output-error` in full is taken exactly, however the program is called. By a tool's own name a
/// text that isn't a value in full stands for the only value that begins so. If several begin so, or none, it is refused, as
/// `cutters` refuses each value that isn't in full (GNU's).
pub fn values_may_be_cut_short()
    ensures follow { AreCutShort follow_values }
    ensures on_broken { AreCutShort on_broken_values }
{}

/// What digits and letters as a first word ask of `tail`: after a hyphen this many of the last lines or bytes, and
/// after a `+` all from this number on, also in blocks of 512 bytes. With an `f` at its end the word asks to follow the
/// file, too. Some words with a `+` are names of files: `+` and `+f`, a path such as `./+2`, `+2` after `--` or after a
/// name, and any first word with a `+` that is the only one of `cutters tail`.
#[tactic(auto, unfolding(crate::specs::Spelling::foremost, crate::specs::Table::tools))]
pub fn starts_ask()
    ensures number { (digits : List ℕ) → is_number digits ≡ true → value_of digits ≤ 2 ^ 63 - 1
        → NumberAsks digits Unit.Lines (value_of digits) }
    ensures bytes { (digits : List ℕ) → is_number digits ≡ true → value_of digits ≤ 2 ^ 63 - 1
        → NumberAsks (digits ++ codes "c") Unit.Bytes (value_of digits) }
    ensures blocks { (digits : List ℕ) → is_number digits ≡ true → value_of digits * 512 ≤ 2 ^ 63 - 1
        → NumberAsks (digits ++ codes "b") Unit.Bytes (value_of digits * 512) }
    ensures lines { (digits : List ℕ) → is_number digits ≡ true → value_of digits ≤ 2 ^ 63 - 1
        → NumberAsks (digits ++ codes "l") Unit.Lines (value_of digits) }
    ensures too_large { (digits : List ℕ) (words : List (List ℕ)) → is_number digits ≡ true
        → 2 ^ 63 - 1 < value_of digits → settings_of Calling.OwnName (codes "tail" ∷ (codes "+" ++ digits) ∷ words)
        ≡ Err (Fault.Usage NumberTooLarge 1) }
    ensures five_blocks { NumberAsks (codes "5b") Unit.Bytes 2560 }
    ensures ten_bytes { StartAsks (codes "c") Unit.Bytes 10 }
    ensures ten_blocks { NumberAsks (codes "b") Unit.Bytes 5120 }
    ensures ten_lines { NumberAsks (codes "l") Unit.Lines 10 }
    ensures path { AreNames (codes "./+2" ∷ []) (codes "./+2" ∷ []) }
    ensures operand { AreNames (codes "--" ∷ codes "+2" ∷ []) (codes "+2" ∷ []) }
    ensures second { AreNames (codes "f" ∷ codes "+2" ∷ []) (codes "f" ∷ codes "+2" ∷ []) }
    ensures plus { AreNames (codes "+" ∷ []) (codes "+" ∷ []) }
    ensures plus_f { AreNames (codes "+f" ∷ []) (codes "+f" ∷ []) }
    ensures cutters { (text : List ℕ) → settings_of Calling.Cutters (codes "tail" ∷ (codes "+" ++ text) ∷ [])
        ≡ Ok (Settings.Tail (unfollowed (ten_lines ((codes "+" ++ text) ∷ [])))) }
{}

/// A word that is read as a hyphen, digits and letters means nothing else: in any other place it is an unknown option.
pub fn letters_take_no_option_away()
    ensures head { (text : List ℕ) (place : ℕ) → is_lettered head_table OfHead text ≡ true
        → mixed head_table place (codes "-" ++ text) ≡ Err (Fault.Usage UnknownOption place) }
    ensures tail { (calling : Calling) (text : List ℕ) (place : ℕ) → is_lettered (tail_table calling) OfTail text ≡ true
        → mixed (tail_table calling) place (codes "-" ++ text) ≡ Err (Fault.Usage UnknownOption place) }
{}

/// What each option of `head` and `tail` asks for, if it is given alone, and what is asked for without any: lines and
/// bytes with their count, headers never or always (POSIX.1-2017, XCU head and tail; GNU coreutils manual).
pub fn ends_options_ask()
    ensures nothing { EndsAsk [] (record {
      unit = Unit.Lines;
      count = record { sign = Sign.Plain; amount = 10 };
      headers = Headers.ForSeveral;
      delim = 10;
      names = codes "-" ∷ [];
    }) }
    ensures lines { (value : List ℕ) (count : Count) → count_of value ≡ Ok count
        → EndsAsk (codes "-n" ∷ value ∷ []) (record ten_of_input { count = count }) }
    ensures bytes { (value : List ℕ) (count : Count) → count_of value ≡ Ok count
        → EndsAsk (codes "-c" ∷ value ∷ []) (record ten_of_input { unit = Unit.Bytes; count = count }) }
    ensures quiet { EndsAsk (codes "-q" ∷ []) (record ten_of_input { headers = Headers.Never }) }
    ensures verbose { EndsAsk (codes "-v" ∷ []) (record ten_of_input { headers = Headers.Always }) }
    ensures zero { EndsAsk (codes "-z" ∷ []) (record ten_of_input { delim = 0 }) }
{}

/// What the options of `tail` for following ask for, and what is asked for without any. Files are opened once; or names
/// are followed, by `cutters` only with `--retry`. By its own name `tail` also follows names as long as they lead to a
/// file, or the first file to which each name leads. Standard input is never followed by name, and by `cutters` not
/// among other files. There are as many looks as can be, or this many; pauses last a second at most, or this many
/// milliseconds; following may end with this process (POSIX.1-2017, XCU tail; GNU coreutils manual).
#[tactic(auto, unfolding(crate::specs::Spelling::foremost, crate::specs::Table::tools, seg_core::specs::Count::digits_of))]
pub fn tail_options_ask()
    ensures nothing { (calling : Calling) → settings_of calling (codes "tail" ∷ []) ≡ Ok (Settings.Tail (record {
      ends = ten_of_input;
      followed = None;
      looks = 2 ^ 63 - 1;
      pause = 1000;
      process = None;
    })) }
    ensures follows { FollowAsks (codes "-f" ∷ []) following }
    ensures input { (calling : Calling) → settings_of calling (codes "tail" ∷ codes "-f" ∷ [])
        ≡ Ok (Settings.Tail (record (unfollowed ten_of_input) { followed = Some Followed.Descriptor })) }
    ensures among { settings_of Calling.Cutters (codes "tail" ∷ codes "-f" ∷ codes "f" ∷ codes "-" ∷ [])
        ≡ Err (Fault.Usage BadFollow 0) }
    ensures own_among { settings_of Calling.OwnName (codes "tail" ∷ codes "-f" ∷ codes "f" ∷ codes "-" ∷ [])
        ≡ Ok (Settings.Tail (record (unfollowed (ten_lines (codes "f" ∷ codes "-" ∷ []))) {
          followed = Some Followed.Descriptor;
        })) }
    ensures unnamed { (calling : Calling) → settings_of calling (codes "tail" ∷ codes "-F" ∷ codes "-" ∷ [])
        ≡ Err (Fault.Usage BadFollow 0) }
    ensures long { FollowAsks (codes "--follow" ∷ []) following }
    ensures descriptor { FollowAsks (codes "--follow=descriptor" ∷ []) following }
    ensures names { FollowAsks (codes "-F" ∷ []) (record following { followed = Some Followed.Name }) }
    ensures retry { FollowAsks (codes "--follow=name" ∷ codes "--retry" ∷ [])
        (record following { followed = Some Followed.Name }) }
    ensures names_alone { RefusedBut 0 (codes "--follow=name" ∷ []) (Some Followed.PresentName) }
    ensures retry_alone { RefusedBut 0 (codes "--retry" ∷ []) None }
    ensures short_files { RefusedBut 1 (codes "--follow=d" ∷ []) (Some Followed.Descriptor) }
    ensures short_names { RefusedBut 1 (codes "--follow=nam" ∷ []) (Some Followed.PresentName) }
    ensures retry_files { RefusedBut 0 (codes "-f" ∷ codes "--retry" ∷ []) (Some Followed.FirstFile) }
    ensures last_files { RefusedBut 0 (codes "-F" ∷ codes "-f" ∷ []) (Some Followed.FirstFile) }
    ensures last_names { FollowAsks (codes "-f" ∷ codes "-F" ∷ [])
        (record following { followed = Some Followed.Name }) }
    ensures looks { (value : List ℕ) → is_number value ≡ true → 1 ≤ value_of value → value_of value ≤ 2 ^ 63 - 1
        → FollowAsks (codes "-f" ∷ codes "--looks" ∷ value ∷ []) (record following { looks = value_of value }) }
    ensures pause { (value : List ℕ) (pause : ℕ) → pause_in value ≡ Ok pause
        → FollowAsks (codes "-f" ∷ codes "-s" ∷ value ∷ []) (record following { pause = pause }) }
    ensures half_seconds { FollowAsks (codes "-f" ∷ codes "-s" ∷ codes "2.5" ∷ []) (record following { pause = 2500 }) }
    ensures process { (value : List ℕ) → is_number value ≡ true → 1 ≤ value_of value → value_of value ≤ 2 ^ 31 - 1
        → FollowAsks (codes "-f" ∷ codes "--pid" ∷ value ∷ []) (record following { process = Some (value_of value) }) }
    ensures unchanged { (value : List ℕ) → is_number value ≡ true → value_of value ≤ 2 ^ 63 - 1
        → FollowAsks (codes "-f" ∷ codes "--max-unchanged-stats" ∷ value ∷ []) following }
    ensures short_pause { FollowAsks (codes "-f" ∷ codes "--sleep-interval=.0501" ∷ [])
        (record following { pause = 51 }) }
{}

/// What each option of `split` asks for, if it is given alone, and what is asked for without any (POSIX.1-2017, XCU
/// split; GNU coreutils manual).
pub fn split_options_ask()
    ensures nothing { SplitAsks [] (record {
      way = Way.Cut (Cut.Parts (Limit.Lines 1000 10));
      alphabet = Alphabet.Letters;
      width = 2;
      auto = true;
      from = None;
      elide = false;
      verbose = false;
      input = codes "-";
      prefix = codes "x";
      ending = [];
    }) }
    ensures lines { (value : List ℕ) (size : ℕ) → size_in value ≡ Ok size
        → SplitAsks (codes "-l" ∷ value ∷ []) (record thousands { way = Way.Cut (Cut.Parts (Limit.Lines size 10)) }) }
    ensures bytes { (value : List ℕ) (size : ℕ) → size_in value ≡ Ok size
        → SplitAsks (codes "-b" ∷ value ∷ []) (record thousands { way = Way.Cut (Cut.Parts (Limit.Bytes size)) }) }
    ensures line_bytes { (value : List ℕ) (size : ℕ) → size_in value ≡ Ok size
        → SplitAsks (codes "-C" ∷ value ∷ [])
        (record thousands { way = Way.Cut (Cut.Parts (Limit.LineBytes size 10)) }) }
    ensures files { (value : List ℕ) (division : Division) → division_in value ≡ Ok division → division.only ≡ None
        → SplitAsks (codes "-n" ∷ value ∷ [])
        (record (as_wide (least_width Alphabet.Letters division.files)) { way = way_of_division 10 division }) }
    ensures one { (value : List ℕ) (division : Division) (place : ℕ) → division_in value ≡ Ok division
        → division.only ≡ Some place
        → SplitAsks (codes "-n" ∷ value ∷ []) (record (as_wide 2) { way = way_of_division 10 division }) }
    ensures digits { SplitAsks (codes "-d" ∷ []) (record thousands { alphabet = Alphabet.Digits }) }
    ensures hexadecimal { SplitAsks (codes "-x" ∷ []) (record thousands { alphabet = Alphabet.Hex }) }
    ensures digits_from { (value : List ℕ) (from : ℕ) → up_to (2 ^ 63 - 1) (digits_of value) ≡ Ok from → from < 100
        → SplitAsks ((codes "--numeric-suffixes=" ++ value) ∷ [])
        (record (as_wide 2) { alphabet = Alphabet.Digits; from = Some from }) }
    ensures hexadecimal_from { (value : List ℕ) (from : ℕ) → hex_in value ≡ Ok from → from < 256
        → SplitAsks ((codes "--hex-suffixes=" ++ value) ∷ [])
        (record (as_wide 2) { alphabet = Alphabet.Hex; from = Some from }) }
    ensures too_short { (value : List ℕ) (from : ℕ) → up_to (2 ^ 63 - 1) (digits_of value) ≡ Ok from → 100 ≤ from
        → (calling : Calling) → settings_of calling (codes "split" ∷ (codes "--numeric-suffixes=" ++ value) ∷ [])
        ≡ Err (Fault.Usage SuffixTooShort 0) }
    ensures split_verbose { SplitAsks (codes "--verbose" ∷ []) (record thousands { verbose = true }) }
    ensures elide { SplitAsks (codes "-e" ∷ []) (record thousands { elide = true }) }
    ensures width { (value : List ℕ) → is_number value ≡ true → 1 ≤ value_of value → value_of value ≤ 255
        → SplitAsks (codes "-a" ∷ value ∷ []) (as_wide (value_of value)) }
    ensures no_width { (value : List ℕ) → is_number value ≡ true → value_of value ≡ 0
        → SplitAsks (codes "-a" ∷ value ∷ []) thousands }
    ensures separator { (value : List ℕ) (byte : ℕ) → byte_in value ≡ Ok byte
        → SplitAsks (codes "-t" ∷ value ∷ [])
        (record thousands { way = Way.Cut (Cut.Parts (Limit.Lines 1000 byte)) }) }
    ensures ending { (value ending : List ℕ) → ending_in value ≡ Ok ending
        → SplitAsks (codes "--additional-suffix" ∷ value ∷ []) (record thousands { ending = ending }) }
    ensures unbuffered { SplitAsks (codes "-u" ∷ []) thousands }
{}

/// What each option of `csplit` asks for, if it is given alone, and what is asked for without any (POSIX.1-2017, XCU
/// csplit; GNU coreutils manual).
pub fn csplit_options_ask()
    ensures nothing { CsplitAsks [] (record {
      prefix = codes "xx";
      form = decimal_form 2;
      ending = [];
      keep = false;
      quiet = false;
      elide = false;
      suppress = false;
      one_past = false;
    }) }
    ensures form { (digits : ℕ) → decimal_form digits ≡ record {
      base = Base.Decimal;
      is_marked = false;
      width = 0;
      filling = Filling.BlanksBefore;
      precision = max 1 digits;
    } }
    ensures prefix { (text : List ℕ) → CsplitAsks (codes "-f" ∷ text ∷ []) (record plain_style { prefix = text }) }
    ensures digits { (value : List ℕ) (digits : ℕ) → up_to 255 (digits_of value) ≡ Ok digits
        → CsplitAsks (codes "-n" ∷ value ∷ []) (record plain_style { form = decimal_form digits }) }
    ensures format { (value : List ℕ) (format : Format) → format_in value ≡ Some format
        → CsplitAsks (codes "-b" ∷ value ∷ []) (record plain_style {
          prefix = codes "xx" ++ format.before.now;
          form = format.form;
          ending = format.after.now;
        }) }
    ensures keep { CsplitAsks (codes "-k" ∷ []) (record plain_style { keep = true }) }
    ensures quiet { CsplitAsks (codes "-s" ∷ []) (record plain_style { quiet = true }) }
    ensures also_quiet { CsplitAsks (codes "-q" ∷ []) (record plain_style { quiet = true }) }
    ensures elide { CsplitAsks (codes "-z" ∷ []) (record plain_style { elide = true }) }
    ensures suppress { CsplitAsks (codes "--suppress-matched" ∷ []) (record plain_style { suppress = true }) }
{}

/// What `tee` is asked for without options, by both ways to call the program; with `-a`; and with an option that says
/// what is done once an output is broken (POSIX.1-2017, XCU tee; GNU coreutils manual).
#[tactic(auto, unfolding(crate::specs::Table::tools))]
pub fn tee_options_ask()
    ensures nothing { TeeAsks Calling.Cutters []
        (record { mode = Mode.Fresh; on_broken = OnBroken.Warn; names = codes "f" ∷ [] }) }
    ensures own_name { TeeAsks Calling.OwnName []
        (record { mode = Mode.Fresh; on_broken = OnBroken.Signal; names = codes "f" ∷ [] }) }
    ensures append { (calling : Calling)
        → TeeAsks calling (codes "-a" ∷ []) (record (fresh_file calling) { mode = Mode.Append }) }
    ensures p { OnBrokenAsks (codes "-p" ∷ []) OnBroken.WarnNoPipe }
    ensures output_error { OnBrokenAsks (codes "--output-error" ∷ []) OnBroken.WarnNoPipe }
    ensures warn_nopipe { OnBrokenAsks (codes "--output-error=warn-nopipe" ∷ []) OnBroken.WarnNoPipe }
    ensures warn { OnBrokenAsks (codes "--output-error=warn" ∷ []) OnBroken.Warn }
    ensures exit { OnBrokenAsks (codes "--output-error=exit" ∷ []) OnBroken.Exit }
    ensures exit_nopipe { OnBrokenAsks (codes "--output-error=exit-nopipe" ∷ []) OnBroken.ExitNoPipe }
    ensures short_mode { TeeAsks Calling.OwnName (codes "--output-error=exit-" ∷ [])
        (record (fresh_file Calling.OwnName) { on_broken = OnBroken.ExitNoPipe }) }
    ensures two_modes { (calling : Calling) → settings_of calling (codes "tee" ∷ codes "--output-error=ex" ∷ [])
        ≡ Err (Fault.Usage BadMode 1) }
{}

/// A hyphen and digits as the only word mean what `-n` means with these digits for `head` and `tail`, and what `-l`
/// means for `split` (GNU coreutils manual).
pub fn numbers_ask()
    ensures head { (calling : Calling) (digits : List ℕ) (count : Count) → is_number digits ≡ true
        → count_of digits ≡ Ok count → settings_of calling (codes "head" ∷ (codes "-" ++ digits) ∷ [])
        ≡ settings_of calling (codes "head" ∷ codes "-n" ∷ digits ∷ []) }
    ensures tail { (calling : Calling) (digits : List ℕ) (count : Count) → is_number digits ≡ true
        → count_of digits ≡ Ok count → settings_of calling (codes "tail" ∷ (codes "-" ++ digits) ∷ [])
        ≡ settings_of calling (codes "tail" ∷ codes "-n" ∷ digits ∷ []) }
    ensures split { (calling : Calling) (digits : List ℕ) (size : ℕ) → is_number digits ≡ true
        → size_in digits ≡ Ok size → settings_of calling (codes "split" ∷ (codes "-" ++ digits) ∷ [])
        ≡ settings_of calling (codes "split" ∷ codes "-l" ∷ digits ∷ []) }
{}
