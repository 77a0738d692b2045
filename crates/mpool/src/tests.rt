//! What scripts answer, over the devices of a host in memory.
use crate::clock::SystemClock;
use crate::stops::name;
use bank_core::{Damage, Fault, ImageChoice, MemBank};
use host_front::{Status, run};
use mp_base::{Clock, MemClock, MemSink, MemSource};
use std::alloc::Global;
use std::process::Abort;
use std::test::Fail;

/// The plainest script, and what it answers.
const PLAINEST: &[u8] = b"create tank 16 mirror a b\nwrite tank 0 c0ffee\nsync tank\nread tank 0\n";

const PLAINEST_REPLIES: &[u8] = b"ok 1\nok\nok 2\nok c0ffee\n";

/// The plainest script without its read.
const COMMITTED: &[u8] = b"create tank 16 mirror a b\nwrite tank 0 c0ffee\nsync tank\n";

/// The same pool in another run.
const IMPORTED: &[u8] = b"import tank\nread tank 0\n";

/// The second at which the scripts run.
const SECOND: u64 = 1_700_000_000;

/// The devices a and b have these numbers, in the order of their look-ups.
const A: u32 = 0;

const B: u32 = 1;

/// How input comes and output goes: the most bytes of a piece, and which call fails.
#[derive(Drop)]
struct Streams {
    read_most: usize,
    failing_read: Option<u64>,
    write_most: usize,
    failing_write: Option<u64>,
}

/// Whole pieces, and no failed call.
const WHOLE: Streams = Streams {
    read_most: usize::MAX,
    failing_read: None,
    write_most: usize::MAX,
    failing_write: None,
};

/// What a run wrote, and how it ended.
#[derive(Drop)]
struct Outcome {
    status: Status,
    written: Vec<u8>,
}

fn run_words(
    rt: &impl Abort,
    alloc: Global,
    words: &[String],
    bank: &mut MemBank,
    script: &[u8],
    streams: &Streams,
) -> Result<Outcome, Fail> {
    assert!(rt; streams.read_most > 0);
    assert!(rt; streams.write_most > 0);
    let bytes = Vec::from_slice(alloc, script)?;
    let mut input = MemSource::new(bytes, streams.read_most, streams.failing_read);
    let mut output = MemSink::new(alloc, streams.write_most, streams.failing_write);
    let mut clock = MemClock::new(alloc, SECOND);
    let status = run(alloc, words, bank, &mut input, &mut output, &mut clock);
    let written = Vec::from_slice(alloc, output.bytes())?;
    Ok(Outcome { status, written })
}

fn run_script(
    rt: &impl Abort,
    alloc: Global,
    bank: &mut MemBank,
    script: &[u8],
    streams: &Streams,
) -> Result<Outcome, Fail> {
    let words = vec![in alloc; format!(in alloc; "script")?]?;
    run_words(rt, alloc, &words, bank, script, streams)
}

/// A bank in memory of the host's devices, of 1,000 sectors each.
fn host_bank(alloc: Global) -> Result<MemBank, Fail> {
    let mut bank = MemBank::new(alloc);
    bank.add(name(alloc, b"a")?, 1000)?;
    bank.add(name(alloc, b"b")?, 1000)?;
    bank.add(name(alloc, b"c")?, 1000)?;
    bank.add(name(alloc, b"d")?, 1000)?;
    bank.add(name(alloc, b"n")?, 1000)?;
    bank.add(name(alloc, b"s")?, 1000)?;
    bank.add(name(alloc, b"t")?, 1000)?;
    Ok(bank)
}

/// Runs a script over a new bank.
fn run_plain(
    rt: &impl Abort,
    alloc: Global,
    script: &[u8],
    streams: &Streams,
) -> Result<Outcome, Fail> {
    let mut bank = host_bank(alloc)?;
    run_script(rt, alloc, &mut bank, script, streams)
}

/// How many device calls a script makes over a new bank.
fn calls_of(rt: &impl Abort, alloc: Global, script: &[u8]) -> Result<u64, Fail> {
    let mut bank = host_bank(alloc)?;
    run_script(rt, alloc, &mut bank, script, &WHOLE)?;
    Ok(bank.place())
}

#[test]
fn scripts_answer_each_line_by_its_reply(rt: HostRuntime) -> Result<(), Fail> {
    let alloc = rt.alloc();
    let cases: [(&[u8], &[u8]); 4] = [
        (PLAINEST, PLAINEST_REPLIES),
        (
            b"create tank 16 mirror a b\nread tank 15\nread tank 16\nwrite tank 16 01",
            b"ok 1\nok -\nno 3 address 16\nno 3 address 16\n",
        ),
        // a line that isn't one of the grammar's, and one before there is a pool
        (
            b"\n# a remark\nread tank 0\nread tank 00\ncreate tank 16 mirror a b\n",
            b"ok\nok\nno 2 pool\nno 40 notbuilt\nok 1\n",
        ),
        (b"", b""),
    ];
    for (script, replies) in cases {
        let outcome = run_plain(&rt, alloc, script, &WHOLE)?;
        assert_eq!(rt; outcome.status, Status::Done);
        assert_eq!(rt; outcome.written.as_slice(), replies);
    }
    Ok(())
}

#[test]
fn the_replies_are_the_same_whatever_the_pieces(rt: HostRuntime) -> Result<(), Fail> {
    let alloc = rt.alloc();
    for (read_most, write_most) in [(1, 1), (7, 3), (4096, 7)] {
        let streams = Streams {
            read_most,
            failing_read: None,
            write_most,
            failing_write: None,
        };
        let outcome = run_plain(&rt, alloc, PLAINEST, &streams)?;
        assert_eq!(rt; outcome.status, Status::Done);
        assert_eq!(rt; outcome.written.as_slice(), PLAINEST_REPLIES);
    }
    Ok(())
}

#[test]
fn a_failed_write_leaves_a_front_of_the_replies(rt: HostRuntime) -> Result<(), Fail> {
    let alloc = rt.alloc();
    // replies of five, three, five and ten bytes go out in 2, 1, 2 and 4 writes
    for failing in 0..12u64 {
        let streams = Streams {
            read_most: usize::MAX,
            failing_read: None,
            write_most: 3,
            failing_write: Some(failing),
        };
        let outcome = run_plain(&rt, alloc, PLAINEST, &streams)?;
        if failing < 9 {
            assert_eq!(rt; outcome.status, Status::SinkFault);
            assert!(rt; outcome.written.len() < PLAINEST_REPLIES.len());
            assert!(rt; PLAINEST_REPLIES.starts_with(&outcome.written));
        } else {
            assert_eq!(rt; outcome.status, Status::Done);
            assert_eq!(rt; outcome.written.as_slice(), PLAINEST_REPLIES);
        }
    }
    Ok(())
}

#[test]
fn a_failed_read_leaves_the_replies_to_whole_lines(rt: HostRuntime) -> Result<(), Fail> {
    let alloc = rt.alloc();
    let lengths = [0usize, 0, 0, 5, 5, 8, 13, 23];
    // the lines end behind the bytes 26, 46, 56 and 68
    for (failing, length) in lengths.iter().enumerate() {
        let streams = Streams {
            read_most: 10,
            failing_read: Some(failing as u64),
            write_most: usize::MAX,
            failing_write: None,
        };
        let outcome = run_plain(&rt, alloc, PLAINEST, &streams)?;
        assert_eq!(rt; outcome.status, Status::SourceFault);
        assert_eq!(rt; outcome.written.len(), *length, "read {failing}");
        assert!(rt; PLAINEST_REPLIES.starts_with(&outcome.written));
    }
    Ok(())
}

#[test]
fn a_line_may_have_16384_bytes(rt: HostRuntime) -> Result<(), Fail> {
    let alloc = rt.alloc();
    for (length, status, replies) in [
        (16_384usize, Status::Done, b"ok 1\nok\nok -\n".as_slice()),
        (16_385, Status::LineTooLong, b"ok 1\n".as_slice()),
    ] {
        let mut script = Vec::from_slice(alloc, b"create tank 16 mirror a b\n#")?;
        for _ in 1..length {
            script.push(b'x')?;
        }
        script.extend_from_slice(b"\nread tank 0\n")?;
        let outcome = run_plain(&rt, alloc, &script, &WHOLE)?;
        assert_eq!(rt; outcome.status, status);
        assert_eq!(rt; outcome.written.as_slice(), replies);
    }
    Ok(())
}

#[test]
fn the_clock_gives_the_seconds_of_the_system(rt: HostRuntime) -> Result<(), Fail> {
    let mut clock = SystemClock::new(&rt);
    let first = clock.now();
    // behind the year 2024, which a clock that can't be read isn't
    assert!(rt; first > 1_735_689_600);
    assert!(rt; clock.now() >= first);
    Ok(())
}

#[test]
fn other_words_are_no_command(rt: HostRuntime) -> Result<(), Fail> {
    let alloc = rt.alloc();
    let cases: [&[&str]; 3] = [&[], &["scripts"], &["script", "script"]];
    for case in cases {
        let mut words = Vec::new(alloc);
        for word in case {
            words.push(format!(in alloc; "{word}")?)?;
        }
        let mut bank = host_bank(alloc)?;
        let outcome = run_words(&rt, alloc, &words, &mut bank, PLAINEST, &WHOLE)?;
        assert_eq!(rt; outcome.status, Status::Usage);
        assert!(rt; outcome.written.is_empty());
    }
    Ok(())
}

#[test]
fn a_failed_write_suspends_its_group_and_closes_the_pool(rt: HostRuntime) -> Result<(), Fail> {
    let alloc = rt.alloc();
    let mut bank = host_bank(alloc)?;
    let created = calls_of(&rt, alloc, b"create tank 16 mirror a b\n")?;
    // the sync's first call
    bank.fail(A, created, created, Fault::Failed)?;
    let script =
        b"create tank 16 mirror a b\nwrite tank 0 01\nsync tank\nread tank 0\nsync tank\nimport tank\nread tank 0\n";
    let outcome = run_script(&rt, alloc, &mut bank, script, &WHOLE)?;
    assert_eq!(rt; outcome.status, Status::Done);
    assert_eq!(rt;
        outcome.written.as_slice(),
        b"ok 1\nok\nno 16 suspended 2 1 1\nno 2 pool\nno 2 pool\nok 2\nok -\n".as_slice()
    );
    Ok(())
}

#[test]
fn a_device_that_fails_is_named_and_leaves_no_pool(rt: HostRuntime) -> Result<(), Fail> {
    let alloc = rt.alloc();
    let cases: [(u32, &[u8]); 2] = [
        (A, b"no 17 fault a\nno 2 pool\nno 21 norecord\nok 1\n"),
        (B, b"no 17 fault b\nno 2 pool\nno 21 norecord\nok 1\n"),
    ];
    for (dev, replies) in cases {
        let mut bank = host_bank(alloc)?;
        bank.fail(dev, 0, 30, Fault::Failed)?;
        let script =
            b"create tank 16 mirror a b\nsync tank\nimport tank\ncreate tank 16 mirror a b\n";
        let outcome = run_script(&rt, alloc, &mut bank, script, &WHOLE)?;
        assert_eq!(rt; outcome.status, Status::Done);
        assert_eq!(rt; outcome.written.as_slice(), replies);
    }
    Ok(())
}

#[test]
fn an_import_answers_what_an_earlier_run_committed(rt: HostRuntime) -> Result<(), Fail> {
    let alloc = rt.alloc();
    let mut bank = host_bank(alloc)?;
    run_script(&rt, alloc, &mut bank, COMMITTED, &WHOLE)?;
    let script =
        b"read tank 0\nimport other\nimport tank\nread tank 0\nread tank 1\nimport tank\ncreate tank 16 mirror c d\n";
    let outcome = run_script(&rt, alloc, &mut bank, script, &WHOLE)?;
    assert_eq!(rt; outcome.status, Status::Done);
    assert_eq!(rt;
        outcome.written.as_slice(),
        b"no 2 pool\nno 21 norecord\nok 3\nok c0ffee\nok -\nno 40 notbuilt\nno 40 notbuilt\n".as_slice()
    );
    Ok(())
}

#[test]
fn a_crash_behind_a_sync_leaves_its_block(rt: HostRuntime) -> Result<(), Fail> {
    let alloc = rt.alloc();
    let mut bank = host_bank(alloc)?;
    run_script(&rt, alloc, &mut bank, COMMITTED, &WHOLE)?;
    // some sectors keep their old bytes, some have the new ones, zeros or noise
    let mut left = bank.after_crash(alloc, bank.place(), ImageChoice::Mixed(7))?;
    let outcome = run_script(&rt, alloc, &mut left, IMPORTED, &WHOLE)?;
    assert_eq!(rt; outcome.written.as_slice(), b"ok 3\nok c0ffee\n".as_slice());
    Ok(())
}

/// Damages all of a device with its call number `place`.
fn damage(bank: &mut MemBank, place: u64, dev: u32) -> Result<(), Fail> {
    bank.damage(
        place,
        Damage {
            dev,
            from: 0,
            to: 999,
            fill: 0xdd,
        },
    )?;
    Ok(())
}

#[test]
fn the_good_member_answers_and_two_damaged_ones_are_exhausted(rt: HostRuntime) -> Result<(), Fail> {
    let alloc = rt.alloc();
    let first_read = calls_of(&rt, alloc, COMMITTED)?;
    let cases: [(&[u32], &[u8]); 4] = [
        (&[], b"ok c0ffee"),
        (&[A], b"ok c0ffee"),
        (&[B], b"ok c0ffee"),
        (&[A, B], b"no 15 exhausted 0 0 a=mismatch,b=mismatch"),
    ];
    for (damaged, reply) in cases {
        let mut bank = host_bank(alloc)?;
        for dev in damaged {
            damage(&mut bank, first_read, *dev)?;
        }
        let outcome = run_script(&rt, alloc, &mut bank, PLAINEST, &WHOLE)?;
        assert_eq!(rt; outcome.status, Status::Done);
        let last = outcome
            .written
            .split(|byte| *byte == b'\n')
            .nth(3)
            .ok_or("no reply")?;
        assert_eq!(rt; last, reply);
    }
    let mut bank = host_bank(alloc)?;
    damage(&mut bank, first_read, A)?;
    bank.fail(B, first_read, u64::MAX, Fault::Gone)?;
    let outcome = run_script(&rt, alloc, &mut bank, PLAINEST, &WHOLE)?;
    assert_eq!(rt;
        outcome.written.as_slice(),
        b"ok 1\nok\nok 2\nno 15 exhausted 0 0 a=mismatch,b=failed\n".as_slice()
    );
    Ok(())
}

/// A script that commits two blocks at one address, one after the other.
const TWICE: &[u8] =
    b"create tank 16 mirror a b\nwrite tank 0 01\nsync tank\nwrite tank 0 02\nsync tank\n";

/// What an opening behind this script may read, by its replies: the block of the last sync that was
/// acknowledged, or a later one.
fn may_read(replies: &str, block: &str) -> bool {
    if replies.ends_with("ok 3") {
        return block == "ok 02";
    }
    if replies.contains("ok 2") {
        return block == "ok 01" || block == "ok 02";
    }
    block == "ok -" || block == "ok 01"
}

#[test]
fn one_failed_call_loses_no_block_that_was_acknowledged(rt: HostRuntime) -> Result<(), Fail> {
    let alloc = rt.alloc();
    let calls = calls_of(&rt, alloc, TWICE)?;
    for dev in [A, B] {
        for place in (5..calls).step_by(29) {
            let mut bank = host_bank(alloc)?;
            bank.fail(dev, place, place, Fault::Failed)?;
            let outcome = run_script(&rt, alloc, &mut bank, TWICE, &WHOLE)?;
            assert_eq!(rt; outcome.status, Status::Done);
            let text = String::from_utf8(outcome.written).map_err(|_| "no text")?;
            let replies = text.trim_end();
            let created = replies.starts_with("ok 1");
            // a call on the other device stands at this place
            if bank.fault_count(dev) == 0 {
                assert_eq!(rt; replies, "ok 1\nok\nok 2\nok\nok 3", "place {place}");
                continue;
            }
            let opened = run_script(&rt, alloc, &mut bank, IMPORTED, &WHOLE)?;
            let text = String::from_utf8(opened.written).map_err(|_| "no text")?;
            let block = text.lines().nth(1).ok_or("no reply")?;
            if created {
                assert!(rt;
                    may_read(replies, block),
                    "place {place}: {replies}, {block}"
                );
            }
        }
    }
    Ok(())
}
