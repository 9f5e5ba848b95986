//! Following: looks at files beside names that others watch; and examples of the definitions alone, where each contract says what
//! they make of some edits with a look after each list.
ghost use Rattle.std.specs.Prelude.{◌≡◌, [], ◌∷◌, Some, drop, codes, true, false, IfOk};
ghost use Rattle.watch_core.specs.Edits.{append, bar, truncate, replace, remove, edited_by, empty_world, seen_in};
ghost use Rattle.mem_core.specs.MemWatchState.{seen};
ghost use Rattle.follow_core.specs.{
  Followed.followed,
  Look.{unopened, unread},
  Telling.{failed, found},
  declared.notice.Notice.TheVariants.{Appeared, Inaccessible, Replaced, Truncated},
  inner.Placing.looks_after,
};
ghost use Rattle.ends_core.specs.Ends.{tail_of};

use ends_core::Unit;
use follow_core::{Follow, Limits, Method, Start, follow_files};
use mem_core::{Edit, MemOut, MemWatch};
use ports_core::{Calling, Fault, Reason};
use std::alloc::Global;
use std::process::Abort;
use std::test::Fail;
use watch_core::Watch;

/// What the definitions make of each example.
fn examples()
    // `tail -F -n 1 f`: what is appended, a truncation, and a replacement after more was appended.
    ensures by_name { followed (record { first = 0; by_name = true; start = tail_of 10 Unit.Lines false 1; seeks = true }) false (codes "f" ∷ []) (looks_after false ((replace (codes "f") (codes "a\nb\n") ∷ []) ∷ (append (codes "f") (codes "c") ∷ []) ∷ (truncate (codes "f") 0 ∷ []) ∷ (append (codes "f") (codes "z\n") ∷ []) ∷ (append (codes "f") (codes "w") ∷ replace (codes "f") (codes "q\n") ∷ []) ∷ []))
        ≡ record { out = codes "b\ncz\nwq\n"; messages = found Truncated (codes "f") ∷ found Replaced (codes "f") ∷ []; has_failed = false } }
    // `tail -F f`, where the file comes after the first look.
    ensures that_appears { followed (record { first = 0; by_name = true; start = tail_of 10 Unit.Lines false 10; seeks = true }) false (codes "f" ∷ []) (looks_after false ([] ∷ (replace (codes "f") (codes "x\n") ∷ []) ∷ []))
        ≡ record { out = codes "x\n"; messages = failed (record { fault = Fault.Open 0; why = Reason.Missing }) (codes "f") ∷ found Appeared (codes "f") ∷ []; has_failed = true } }
    // `tail -F f`, where the file is removed and another one comes.
    ensures that_comes_again { followed (record { first = 0; by_name = true; start = tail_of 10 Unit.Lines false 10; seeks = true }) false (codes "f" ∷ []) (looks_after false ((replace (codes "f") (codes "a\n") ∷ []) ∷ (remove (codes "f") ∷ []) ∷ (replace (codes "f") (codes "b\n") ∷ []) ∷ []))
        ≡ record { out = codes "a\nb\n"; messages = found Inaccessible (codes "f") ∷ found Appeared (codes "f") ∷ []; has_failed = false } }
    // `tail -f f`, where the file is removed and another one comes: the one that was opened is followed.
    ensures that_is_left { followed (record { first = 0; by_name = false; start = tail_of 10 Unit.Lines false 10; seeks = true }) false (codes "f" ∷ []) (looks_after false ((replace (codes "f") (codes "a\n") ∷ []) ∷ (remove (codes "f") ∷ []) ∷ (replace (codes "f") (codes "b\n") ∷ []) ∷ []))
        ≡ record { out = codes "a\n"; messages = []; has_failed = false } }
    // `tail -f g`, where there is no such file.
    ensures that_is_missing { followed (record { first = 0; by_name = false; start = tail_of 10 Unit.Lines false 10; seeks = true }) false (codes "g" ∷ []) (looks_after false ([] ∷ []))
        ≡ record { out = []; messages = failed (record { fault = Fault.Open 0; why = Reason.Missing }) (codes "g") ∷ []; has_failed = true } }
    // `tail -f -c 2 f`, where the file is truncated.
    ensures that_is_truncated { followed (record { first = 0; by_name = false; start = tail_of 10 Unit.Bytes false 2; seeks = false }) false (codes "f" ∷ []) (looks_after false ((replace (codes "f") (codes "abc") ∷ []) ∷ (truncate (codes "f") 1 ∷ []) ∷ (append (codes "f") (codes "d") ∷ []) ∷ []))
        ≡ record { out = codes "bcad"; messages = found Truncated (codes "f") ∷ []; has_failed = false } }
    // `tail -f -n 1 f g`: a header stands where the text of another name begins.
    ensures of_two_names { followed (record { first = 0; by_name = false; start = tail_of 10 Unit.Lines false 1; seeks = true }) true (codes "f" ∷ codes "g" ∷ []) (looks_after false ((replace (codes "f") (codes "a\n") ∷ replace (codes "g") (codes "b\n") ∷ []) ∷ (append (codes "f") (codes "c\n") ∷ []) ∷ (append (codes "f") (codes "d\n") ∷ []) ∷ (append (codes "g") (codes "e\n") ∷ []) ∷ []))
        ≡ record { out = codes "==> f <==\na\n\n==> g <==\nb\n\n==> f <==\nc\nd\n\n==> g <==\ne\n"; messages = []; has_failed = false } }
    // The same, where the first call on `f` fails.
    ensures of_one_that_breaks { let first = replace (codes "f") (codes "a\n") ∷ replace (codes "g") (codes "b\n") ∷ [] in
        let later = (append (codes "f") (codes "c\n") ∷ []) ∷ (append (codes "f") (codes "d\n") ∷ []) ∷ (append (codes "g") (codes "e\n") ∷ []) ∷ [] in
        followed (record { first = 0; by_name = false; start = tail_of 10 Unit.Lines false 1; seeks = true }) true (codes "f" ∷ codes "g" ∷ []) (record { snapshot = seen_in (edited_by first empty_world); visits = record { fate = unopened; why = Reason.Denied } ∷ [] } ∷ drop 1 (looks_after false (first ∷ later)))
        ≡ record { out = codes "==> g <==\nb\ne\n"; messages = failed (record { fault = Fault.Open 0; why = Reason.Denied }) (codes "f") ∷ []; has_failed = true } }
    // `tail -F f`, where another file comes that can't be opened: what came to the open one is written, and that it was replaced is told.
    ensures that_cannot_be_opened { let first = replace (codes "f") (codes "a\n") ∷ [] in let later = append (codes "f") (codes "c\n") ∷ replace (codes "f") (codes "q\n") ∷ [] in
        followed (record { first = 0; by_name = true; start = tail_of 10 Unit.Lines false 1; seeks = true }) false (codes "f" ∷ [])
        (record { snapshot = seen_in (edited_by first empty_world); visits = [] } ∷ record { snapshot = seen_in (edited_by later (edited_by first empty_world)); visits = record { fate = unopened; why = Reason.Denied } ∷ [] } ∷ [])
        ≡ record { out = codes "a\nc\n"; messages = found Replaced (codes "f") ∷ failed (record { fault = Fault.Open 0; why = Reason.Denied }) (codes "f") ∷ []; has_failed = true } }
    // `tail -f -c 2 f`, where a read of its sixth byte fails: what stands before it is written.
    ensures that_cannot_be_read { let first = replace (codes "f") (codes "abc") ∷ [] in let later = append (codes "f") (codes "defg") ∷ [] in
        followed (record { first = 0; by_name = false; start = tail_of 10 Unit.Bytes false 2; seeks = false }) false (codes "f" ∷ [])
        (record { snapshot = seen_in (edited_by first empty_world); visits = [] } ∷ record { snapshot = seen_in (edited_by later (edited_by first empty_world)); visits = record { fate = unread (Some 0) 5; why = Reason.Input } ∷ [] } ∷ [])
        ≡ record { out = codes "bcde"; messages = failed (record { fault = Fault.Read 0; why = Reason.Input }) (codes "f") ∷ []; has_failed = true } }
    // `tail -F f` by its own name, where the file can't be read for a look after more came to it: it is missing there, and then comes whole.
    ensures that_is_barred { followed (record { first = 0; by_name = true; start = tail_of 10 Unit.Lines false 1; seeks = true }) false (codes "f" ∷ []) (looks_after true ((replace (codes "f") (codes "a\nb\n") ∷ []) ∷ (append (codes "f") (codes "c\n") ∷ bar (codes "f") true ∷ []) ∷ (bar (codes "f") false ∷ []) ∷ []))
        ≡ record { out = codes "b\nc\na\nb\nc\n"; messages = found Inaccessible (codes "f") ∷ found Appeared (codes "f") ∷ []; has_failed = false } }
    // The same edits before one look: it was never missing.
    ensures that_is_barred_unseen { followed (record { first = 0; by_name = true; start = tail_of 10 Unit.Lines false 1; seeks = true }) false (codes "f" ∷ []) (looks_after true ((replace (codes "f") (codes "a\nb\n") ∷ []) ∷ (append (codes "f") (codes "c\n") ∷ bar (codes "f") true ∷ bar (codes "f") false ∷ []) ∷ []))
        ≡ record { out = codes "b\nc\n"; messages = []; has_failed = false } }
{}

#[test]
fn definitions_give_the_examples() {
    examples();
}

const LAST_LINE: Start = Start {
    unit: Unit::Lines,
    from_nth: false,
    count: 1,
    delim: b'\n',
};

/// Names that are followed, whether by name, and what two looks write and say of them.
type Row<'a> = (&'a [&'a str], bool, &'a [u8], &'a [u8]);

const ROWS: &[Row<'static>] = &[
    (&["f"], false, b"b\nc\n", b""),
    (
        &["g", "h", "f"],
        true,
        b"==> g <==\nx\n\n==> f <==\nb\n\n==> g <==\ny\n\n==> f <==\nc\n",
        b"tail: cannot open 'h'\n",
    ),
    (&[], true, b"", b""),
];

#[test]
fn follows_beside_others(rt: HostRuntime) -> Result<(), Fail> {
    for row in ROWS {
        look_twice(&rt, rt.alloc(), row)?;
    }
    Ok(())
}

/// Two looks write as if nothing else were watched, and leave the name of others with the file that is open.
fn look_twice(rt: &impl Abort, alloc: Global, row: &Row<'_>) -> Result<(), Fault> {
    let mut watch = watch_of_others(alloc)?;
    let opened = watch.open_id(0);
    let mut outs = MemOut::new(alloc)?;
    let mut follow = Follow::open(
        alloc,
        row.0,
        Unit::Lines,
        false,
        1,
        row.1,
        1 < row.0.len(),
        b'\n',
    )?;
    follow.look(&mut watch, &mut outs)?;
    follow.look(&mut watch, &mut outs)?;
    assert_eq!(rt; (outs.bytes(0), outs.bytes(1)), (row.2, row.3));
    assert_eq!(rt; watch.open_id(0), opened);
    Ok(())
}

/// A process that is waited for, in how many looks at most, and what is written.
type Waited = (Option<u32>, u64, &'static [u8]);

/// Process 7 ends before the third of four looks, of which that is the last.
const WAITED: &[Waited] = &[
    (Some(7), 4, b"a\nb\nc\n"),
    (Some(7), 2, b"a\nb\n"),
    (Some(8), 4, b"a\nb\nc\nd\n"),
    (None, 4, b"a\nb\nc\nd\n"),
];

#[test]
fn ends_with_a_process(rt: HostRuntime) -> Result<(), Fail> {
    for row in WAITED {
        wait_for(&rt, rt.alloc(), row)?;
    }
    Ok(())
}

/// A run writes this, and its status is 0.
fn wait_for(rt: &impl Abort, alloc: Global, row: &Waited) -> Result<(), Fault> {
    let mut watch = MemWatch::new(alloc)?;
    watch.then(&[Edit::Replace("f", b"a\n")])?;
    watch.then(&[Edit::Append("f", b"b\n")])?;
    watch.then(&[Edit::Append("f", b"c\n"), Edit::End(7)])?;
    watch.then(&[Edit::Append("f", b"d\n")])?;
    let mut outs = MemOut::new(alloc)?;
    let limits = Limits {
        looks: row.1,
        process: row.0,
    };
    let status = follow_files(
        alloc,
        Calling::Cutters,
        &["f"],
        LAST_LINE,
        Method::Name,
        false,
        limits,
        &mut watch,
        &mut outs,
    );
    assert_eq!(rt; (status, outs.bytes(0)), (0, row.2));
    Ok(())
}

/// How `tail` was called, how it follows `f`, the edits before each look, and what a run leaves: its status, and what it writes and
/// says.
struct Barred<'a> {
    calling: Calling,
    method: Method,
    looks: &'a [&'a [Edit<'a>]],
    status: u8,
    output: &'a [u8],
    messages: &'a [u8],
}

/// A file that can't be opened at the first look and later can.
const BARRED_AT_FIRST: &[&[Edit<'static>]] = &[
    &[Edit::Replace("f", b"a\nb\n"), Edit::Bar("f", true)],
    &[Edit::Append("f", b"c\n")],
    &[Edit::Bar("f", false)],
    &[Edit::Append("f", b"d\n")],
];

/// One that can't be opened any more, then leads to another file, and then can be opened.
const BARRED_LATER: &[&[Edit<'static>]] = &[
    &[Edit::Replace("f", b"a\nb\n")],
    &[Edit::Append("f", b"c\n"), Edit::Bar("f", true)],
    &[Edit::Replace("f", b"x\n")],
    &[Edit::Bar("f", false)],
    &[Edit::Append("f", b"y\n")],
];

const BARRED: &[Barred<'static>] = &[
    Barred {
        calling: Calling::OwnName,
        method: Method::Name,
        looks: BARRED_AT_FIRST,
        status: 1,
        output: b"a\nb\nc\nd\n",
        messages: b"tail: cannot open 'f': Permission denied\ntail: 'f': file appeared\n",
    },
    Barred {
        calling: Calling::Cutters,
        method: Method::Name,
        looks: BARRED_AT_FIRST,
        status: 1,
        output: b"",
        messages: b"tail: cannot open 'f'\n",
    },
    Barred {
        calling: Calling::OwnName,
        method: Method::Name,
        looks: BARRED_LATER,
        status: 0,
        output: b"b\nc\nx\ny\n",
        messages: b"tail: 'f': file inaccessible\ntail: 'f': file appeared\n",
    },
    Barred {
        calling: Calling::Cutters,
        method: Method::Name,
        looks: BARRED_LATER,
        status: 1,
        output: b"b\nc\n",
        messages: b"tail: cannot open 'f'\n",
    },
    // There is none at first.
    Barred {
        calling: Calling::OwnName,
        method: Method::Name,
        looks: &[&[], &[Edit::Replace("f", b"a\n")]],
        status: 1,
        output: b"a\n",
        messages: b"tail: cannot open 'f': No such file or directory\ntail: 'f': file appeared\n",
    },
    // While it is there: it is dropped where it is missing at first.
    Barred {
        calling: Calling::OwnName,
        method: Method::PresentName,
        looks: &[&[], &[Edit::Replace("f", b"a\n")]],
        status: 1,
        output: b"",
        messages: b"tail: cannot open 'f': No such file or directory\n",
    },
    // It is followed to another file, and dropped once it is removed.
    Barred {
        calling: Calling::OwnName,
        method: Method::PresentName,
        looks: &[
            &[Edit::Replace("f", b"a\nb\n")],
            &[Edit::Append("f", b"c\n"), Edit::Replace("f", b"x\n")],
            &[Edit::Append("f", b"y\n"), Edit::Remove("f")],
            &[Edit::Replace("f", b"z\n")],
        ],
        status: 1,
        output: b"b\nc\nx\ny\n",
        messages: b"tail: 'f': file replaced\ntail: cannot open 'f': No such file or directory\n",
    },
    // It is dropped where it can't be read.
    Barred {
        calling: Calling::OwnName,
        method: Method::PresentName,
        looks: BARRED_LATER,
        status: 1,
        output: b"b\nc\n",
        messages: b"tail: cannot open 'f': Permission denied\n",
    },
    // The first file: it is looked for until it is there, and then followed wherever the name leads.
    Barred {
        calling: Calling::OwnName,
        method: Method::FirstFile,
        looks: &[
            &[],
            &[],
            &[Edit::Replace("f", b"a\nb\n")],
            &[Edit::Append("f", b"c\n"), Edit::Replace("f", b"x\n")],
            &[Edit::Append("f", b"y\n"), Edit::Remove("f")],
        ],
        status: 1,
        output: b"a\nb\nc\n",
        messages: b"tail: cannot open 'f': No such file or directory\ntail: 'f': file appeared\n",
    },
    // One that is there at first, and is truncated.
    Barred {
        calling: Calling::OwnName,
        method: Method::FirstFile,
        looks: &[
            &[Edit::Replace("f", b"a\nb\n")],
            &[Edit::Truncate("f", 1)],
            &[Edit::Append("f", b"c\n"), Edit::Remove("f")],
            &[Edit::Replace("f", b"x\n")],
        ],
        status: 0,
        output: b"b\nac\n",
        messages: b"tail: 'f': file truncated\n",
    },
    // One that can't be read at first counts as missing, and later it is followed on.
    Barred {
        calling: Calling::OwnName,
        method: Method::FirstFile,
        looks: BARRED_AT_FIRST,
        status: 1,
        output: b"a\nb\nc\nd\n",
        messages: b"tail: cannot open 'f': Permission denied\ntail: 'f': file appeared\n",
    },
    Barred {
        calling: Calling::OwnName,
        method: Method::FirstFile,
        looks: BARRED_LATER,
        status: 0,
        output: b"b\nc\n",
        messages: b"",
    },
];

#[test]
fn forgives_by_its_own_name_alone(rt: HostRuntime) -> Result<(), Fail> {
    for row in BARRED {
        let watch = watch_of(rt.alloc(), row.looks)?;
        follows_barred(&rt, rt.alloc(), row, watch)?;
    }
    Ok(())
}

/// By its own name no call fails on a name that is followed to where it leads, whichever is planned to.
#[test]
fn forgives_each_call(rt: HostRuntime) -> Result<(), Fail> {
    for row in BARRED {
        if row.calling == Calling::OwnName && row.method == Method::Name {
            forgives_any(&rt, rt.alloc(), row)?;
        }
    }
    Ok(())
}

fn forgives_any(rt: &impl Abort, alloc: Global, row: &Barred<'_>) -> Result<(), Fault> {
    for call in 1..20u64 {
        let mut watch = watch_of(alloc, row.looks)?;
        watch.fail_at(call);
        follows_barred(rt, alloc, row, watch)?;
    }
    Ok(())
}

/// The number of the call that fails on the open file of a name that stays with its first one, and what the run leaves: it says so, and
/// drops the name.
const CLUNG: &[(u64, Barred<'static>)] = &[
    (
        1,
        Barred {
            calling: Calling::OwnName,
            method: Method::FirstFile,
            looks: &[&[Edit::Replace("f", b"a\nb\n")]],
            status: 1,
            output: b"",
            messages: b"tail: cannot read 'f': Permission denied\n",
        },
    ),
    (
        4,
        Barred {
            calling: Calling::OwnName,
            method: Method::FirstFile,
            looks: &[
                &[Edit::Replace("f", b"a\nb\n")],
                &[Edit::Append("f", b"c\n")],
                &[Edit::Append("f", b"d\n")],
            ],
            status: 1,
            output: b"b\n",
            messages: b"tail: cannot read 'f': Permission denied\n",
        },
    ),
    (
        5,
        Barred {
            calling: Calling::OwnName,
            method: Method::FirstFile,
            looks: &[
                &[Edit::Replace("f", b"a\nb\n")],
                &[Edit::Append("f", b"c\n")],
                &[Edit::Append("f", b"d\n")],
            ],
            status: 1,
            output: b"b\n",
            messages: b"tail: cannot read 'f': Permission denied\n",
        },
    ),
];

#[test]
fn drops_a_first_file_that_fails(rt: HostRuntime) -> Result<(), Fail> {
    for row in CLUNG {
        let mut watch = watch_of(rt.alloc(), row.1.looks)?;
        watch.fail_at(row.0);
        follows_barred(&rt, rt.alloc(), &row.1, watch)?;
    }
    Ok(())
}

/// How `tail -f f g` was called, the number of the call that fails, and what it says: by its own name it tells why, and drops the name too.
type Failing = (Calling, u64, &'static [u8]);

const FAILING: &[Failing] = &[
    (
        Calling::OwnName,
        1,
        b"tail: cannot open 'f': Permission denied\ntail: cannot open 'g': No such file or directory\n",
    ),
    (
        Calling::OwnName,
        2,
        b"tail: cannot read 'f': Permission denied\ntail: cannot open 'g': No such file or directory\n",
    ),
    (
        Calling::OwnName,
        3,
        b"tail: cannot read 'f': Permission denied\ntail: cannot open 'g': No such file or directory\n",
    ),
    (
        Calling::Cutters,
        1,
        b"tail: cannot open 'f'\ntail: cannot open 'g'\n",
    ),
    (
        Calling::Cutters,
        2,
        b"tail: cannot read 'f'\ntail: cannot open 'g'\n",
    ),
];

#[test]
fn tells_why_by_its_own_name_alone(rt: HostRuntime) -> Result<(), Fail> {
    for row in FAILING {
        let watch = watch_of(rt.alloc(), &[&[Edit::Replace("f", b"a\n")]])?;
        tells_why(&rt, rt.alloc(), row, watch)?;
    }
    Ok(())
}

fn tells_why(
    rt: &impl Abort,
    alloc: Global,
    row: &Failing,
    mut watch: MemWatch,
) -> Result<(), Fault>
    requires unturned { watch.turns ≡ 0 }
    requires unwatched { watch.watched ≡ [] }
{
    watch.fail_at(row.1);
    watch.fail_for(Reason::Denied);
    let mut outs = MemOut::new(alloc)?;
    let limits = Limits {
        looks: 2,
        process: None,
    };
    let names = ["f", "g"];
    let status = follow_files(
        alloc,
        row.0,
        &names,
        LAST_LINE,
        Method::Descriptor,
        false,
        limits,
        &mut watch,
        &mut outs,
    );
    assert_eq!(rt; (status, outs.bytes(1)), (1, row.2));
    Ok(())
}

/// A run leaves what the row says.
fn follows_barred(
    rt: &impl Abort,
    alloc: Global,
    row: &Barred<'_>,
    mut watch: MemWatch,
) -> Result<(), Fault>
    requires unturned { watch.turns ≡ 0 }
    requires unwatched { watch.watched ≡ [] }
{
    watch.fail_for(Reason::Denied);
    let mut outs = MemOut::new(alloc)?;
    let limits = Limits {
        looks: row.looks.len() as u64,
        process: None,
    };
    let names = ["f"];
    let status = follow_files(
        alloc,
        row.calling,
        &names,
        LAST_LINE,
        row.method,
        false,
        limits,
        &mut watch,
        &mut outs,
    );
    assert_eq!(rt;
        (status, outs.bytes(0), outs.bytes(1)),
        (row.status, row.output, row.messages)
    );
    Ok(())
}

/// Files in memory with a look after each of these lists of edits.
fn watch_of(alloc: Global, looks: &[&[Edit<'_>]]) -> Result<MemWatch, Fault>
    ensures unturned { IfOk result (λ watch. watch.turns ≡ 0) }
    ensures unseen { IfOk result (λ watch. seen watch ≡ []) }
    ensures unwatched { IfOk result (λ watch. watch.watched ≡ []) }
{
    let mut watch = MemWatch::new(alloc)?;
    let mut left = looks;
    while let [edits, rest @ ..] = left {
        watch.then(edits)?;
        left = rest;
    }
    Ok(watch)
}

/// A watch over a name of others, who made a look and opened a file that is replaced at the next one.
fn watch_of_others(alloc: Global) -> Result<MemWatch, Fault> {
    let mut watch = MemWatch::new(alloc)?;
    watch.then(&[Edit::Replace("g", b"w\n")])?;
    watch.then(&[Edit::Replace("f", b"a\nb\n"), Edit::Replace("g", b"x\n")])?;
    watch.then(&[Edit::Append("f", b"c\n"), Edit::Append("g", b"y\n")])?;
    watch.add("g")?;
    watch.turn()?;
    watch.reopen(0)?;
    Ok(watch)
}
