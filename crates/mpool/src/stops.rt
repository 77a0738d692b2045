//! What a pool answers after a stop, at any moment and with anything that a crash may leave.
use bank_core::{ImageChoice, MemBank};
use host_front::{Status, run};
use mp_base::{MemClock, MemSink, MemSource, Name};
use std::alloc::Global;
use std::process::Abort;
use std::test::Fail;

/// The device calls of a `create`: two stamps of nine, and a round of twenty-two.
const CREATE_CALLS: u64 = 40;

/// What a crash may leave where a sector is pending.
const CHOICES: [ImageChoice; 6] = [
    ImageChoice::Old,
    ImageChoice::New,
    ImageChoice::Zeros,
    ImageChoice::Noise(7),
    ImageChoice::Mixed(1),
    ImageChoice::Mixed(5),
];

pub(crate) fn name(alloc: Global, word: &[u8]) -> Result<Name, Fail> {
    Ok(Name::new(alloc, word).map_err(|_| "no name")?)
}

/// A bank of the devices a and b alone.
fn small_bank(alloc: Global) -> Result<MemBank, Fail> {
    let mut bank = MemBank::new(alloc);
    bank.add(name(alloc, b"a")?, 320)?;
    bank.add(name(alloc, b"b")?, 330)?;
    Ok(bank)
}

/// Runs a script, which ends well, and gives its replies.
pub(crate) fn replies(
    rt: &impl Abort,
    alloc: Global,
    bank: &mut MemBank,
    script: &[u8],
) -> Result<String, Fail> {
    let words = vec![in alloc; format!(in alloc; "script")?]?;
    let mut input = MemSource::new(Vec::from_slice(alloc, script)?, usize::MAX, None);
    let mut output = MemSink::new(alloc, usize::MAX, None);
    let mut clock = MemClock::new(alloc, 1_700_000_000);
    let status = run(alloc, &words, bank, &mut input, &mut output, &mut clock);
    assert_eq!(rt; status, Status::Done);
    let written = Vec::from_slice(alloc, output.bytes())?;
    Ok(String::from_utf8(written).map_err(|_| "no text")?)
}

#[test]
fn a_sync_that_is_stopped_reads_the_old_or_the_new_block(rt: HostRuntime) -> Result<(), Fail> {
    let alloc = rt.alloc();
    let mut bank = small_bank(alloc)?;
    let script = b"create tank 16 mirror a b\nwrite tank 0 01\nsync tank\n";
    let text = replies(&rt, alloc, &mut bank, script)?;
    assert_eq!(rt; text.as_str(), "ok 1\nok\nok 2\n");
    // two block writes, two flushes, and six, ten and six calls of the round
    assert_eq!(rt; bank.place(), CREATE_CALLS + 26);
    // stopped before call k, and behind the last
    for k in 1..=27 {
        for choice in CHOICES {
            let mut left = bank.after_crash(alloc, CREATE_CALLS + k - 1, choice)?;
            let text = replies(&rt, alloc, &mut left, b"import tank\nread tank 0\n")?;
            if text.as_str() == "ok 2\nok -\n" {
                assert!(rt; k < 16, "before call {k} the block is old");
            } else {
                assert_eq!(rt; text.as_str(), "ok 3\nok 01\n");
                assert!(rt; k > 11, "before call {k} the block is new");
            }
        }
    }
    Ok(())
}

/// The calls that an opening of the small bank's pool makes before it commits: eight reads of the labels
/// of each device, and one of a ring for each identity.
const OPENING_READS: u64 = 18;

#[test]
fn an_import_that_is_stopped_keeps_what_was_acknowledged(rt: HostRuntime) -> Result<(), Fail> {
    let alloc = rt.alloc();
    let mut bank = small_bank(alloc)?;
    let script = b"create tank 16 mirror a b\nwrite tank 0 01\nsync tank\n";
    replies(&rt, alloc, &mut bank, script)?;
    let reopened = b"import tank\nread tank 0\n";
    // a's uberblock isn't flushed yet; it is; and the sync has answered
    for made in [11, 16, 26] {
        for choice in [ImageChoice::New, ImageChoice::Mixed(2)] {
            let stopped = CREATE_CALLS + made;
            assert!(rt; stopped <= bank.place());
            let mut left = bank.after_crash(alloc, stopped, choice)?;
            let first = replies(&rt, alloc, &mut left, b"import tank\n")?;
            let (before, behind) = match first.as_str() {
                "ok 2\n" => ("ok 2\nok -\n", "ok 3\nok -\n"),
                "ok 3\n" => ("ok 3\nok 01\n", "ok 4\nok 01\n"),
                _ => return Err(Fail::from("another reply")),
            };
            // two flushes and a round follow the reads
            assert_eq!(rt; left.place(), OPENING_READS + 24);
            for moment in OPENING_READS..=left.place() {
                let mut again = left.after_crash(alloc, moment, choice)?;
                let text = replies(&rt, alloc, &mut again, reopened)?;
                if text.as_str() == behind {
                    assert!(rt;
                        moment > OPENING_READS + 2 + 6,
                        "at {moment} the new record is read"
                    );
                } else {
                    assert!(rt;
                        moment < OPENING_READS + 2 + 11,
                        "at {moment} the old record is read"
                    );
                    // a record that was never acknowledged may be given up while the round writes over
                    // its labels
                    if text.as_str() != before {
                        assert_eq!(rt; text.as_str(), "ok 2\nok -\n");
                        assert!(rt;
                            made < 26 && moment > OPENING_READS + 2,
                            "at {moment} the acknowledged record is read"
                        );
                    }
                }
            }
        }
    }
    Ok(())
}

/// Two blocks are written together before each sync, and read with each other's value.
const LONG_SCRIPT: &[u8] = b"create tank 16 mirror a b\n\
write tank 0 01\nwrite tank 5 01\nsync tank\nread tank 0\n\
write tank 0 02\nwrite tank 5 02\nsync tank\nread tank 5\n\
write tank 0 03\nwrite tank 5 03\nsync tank\nread tank 0\n\
write tank 0 04\nwrite tank 5 04\nsync tank\nread tank 5\n\
write tank 0 05\nwrite tank 5 05\nsync tank\n";

#[test]
fn a_script_that_is_stopped_anywhere_keeps_what_was_acknowledged(
    rt: HostRuntime,
) -> Result<(), Fail> {
    let alloc = rt.alloc();
    let mut bank = small_bank(alloc)?;
    let text = replies(&rt, alloc, &mut bank, LONG_SCRIPT)?;
    assert!(rt; text.as_str().ends_with("ok\nok\nok 6\n"));
    // four block writes, two flushes and a round of 22 calls a sync, and a read behind all but the last
    const SYNC_CALLS: u64 = 28;
    assert_eq!(rt; bank.place(), CREATE_CALLS + 5 * SYNC_CALLS + 4);
    for moment in CREATE_CALLS..=bank.place() {
        let done = (moment - CREATE_CALLS) / (SYNC_CALLS + 1);
        let within = (moment - CREATE_CALLS) % (SYNC_CALLS + 1);
        let choice = CHOICES[(moment % 6) as usize];
        let mut left = bank.after_crash(alloc, moment, choice)?;
        let text = replies(
            &rt,
            alloc,
            &mut left,
            b"import tank\nread tank 0\nread tank 5\n",
        )?;
        let old = state_of(alloc, done)?;
        let new = state_of(alloc, done + 1)?;
        // the first flush of the second phase ends with call 17
        if text.as_str() == old.as_str() {
            assert!(rt; within < 17, "at {moment} the old blocks are read");
        } else {
            assert_eq!(rt; text.as_str(), new.as_str());
            assert!(rt; within > 12, "at {moment} the new blocks are read");
        }
    }
    Ok(())
}

/// What an opening and two reads answer behind so many syncs of the long script.
fn state_of(alloc: Global, syncs: u64) -> Result<String, Fail> {
    let number = syncs.saturating_add(2);
    if syncs == 0 {
        return Ok(format!(in alloc; "ok {number}\nok -\nok -\n")?);
    }
    Ok(format!(in alloc; "ok {number}\nok 0{syncs}\nok 0{syncs}\n")?)
}

#[test]
fn an_opening_without_a_member_or_a_record_is_refused(rt: HostRuntime) -> Result<(), Fail> {
    let alloc = rt.alloc();
    let mut bank = small_bank(alloc)?;
    let script =
        b"import tank\nread tank 0\ncreate tank 16 mirror a b\nimport tank\nimport pond\nsync pond\n";
    let text = replies(&rt, alloc, &mut bank, script)?;
    assert_eq!(rt;
        text.as_str(),
        "no 21 norecord\nno 2 pool\nok 1\nno 40 notbuilt\nno 21 norecord\nno 2 pool\n"
    );
    Ok(())
}
