//! What a pool answers while a device is away, and once it is back.
use crate::stops::{name, replies};
use bank_core::{Bank, Damage, Fault, ImageChoice, MemBank};
use std::alloc::Global;
use std::test::Fail;

/// The numbers of the devices a and b in the order of their look-ups.
const A: u32 = 0;

const B: u32 = 1;

const SECTORS: u64 = 1000;

/// The first sector of each ring of a device of 1,000 sectors.
const RINGS: [u64; 4] = [32, 96, 904, 968];

const RING_SECTORS: u64 = 32;

/// A bank of the devices a and b alone.
fn two_devices(alloc: Global) -> Result<MemBank, Fail> {
    let mut bank = MemBank::new(alloc);
    bank.add(name(alloc, b"a")?, SECTORS)?;
    bank.add(name(alloc, b"b")?, SECTORS)?;
    Ok(bank)
}

/// What a device of the bank holds.
#[tactic(auto, unfolding(bank_core::specs::Disk::sector_size))]
fn bytes_of(alloc: Global, bank: &MemBank, dev: u32) -> Result<Vec<u8>, Fail> {
    let mut bytes = Vec::new(alloc);
    for at in 0..bank.sectors(dev) {
        let mut sector = [0; 4096];
        bank.image(bank.place(), dev, at, ImageChoice::Old, &mut sector);
        bytes.extend_from_slice(&sector)?;
    }
    Ok(bytes)
}

#[test]
fn a_device_that_was_away_owes_what_it_missed(rt: HostRuntime) -> Result<(), Fail> {
    let alloc = rt.alloc();
    let mut bank = two_devices(alloc)?;
    let script =
        b"create tank 16 mirror a b\nsync tank\nsync tank\nsync tank\noffline tank a\nwrite tank 0 aa\n\
sync tank\nsync tank\nsync tank\nlogs tank\nread tank 0\noffline tank b\nonline tank a\nonline tank a\nlogs tank\noffline tank b\noffline tank a\noffline tank a\noffline tank z\n";
    let text = replies(&rt, alloc, &mut bank, script)?;
    let wanted =
        "ok 1\nok 2\nok 3\nok 4\nok\nok\nok 5\nok 6\nok 7\nok a=5-7 b=-\nok aa\nno 8 required 1\nok ONLINE\nok ONLINE\nok a=5-7 b=-\nno 8 required 5\nok\nok\nno 6 vdev\n";
    assert_eq!(rt; text.as_str(), wanted);
    Ok(())
}

#[test]
fn a_device_without_its_labels_does_not_come_back(rt: HostRuntime) -> Result<(), Fail> {
    let alloc = rt.alloc();
    let script = b"create tank 16 mirror a b\noffline tank a\nonline tank a\n";
    // the calls of `create` come before those of `online`
    let mut plain = two_devices(alloc)?;
    let text = replies(&rt, alloc, &mut plain, b"create tank 16 mirror a b\n")?;
    assert_eq!(rt; text.as_str(), "ok 1\n");
    let place = plain.place();
    let mut hurt = two_devices(alloc)?;
    for at in RINGS {
        let damage = Damage {
            dev: A,
            from: at,
            to: at + RING_SECTORS - 1,
            fill: 0,
        };
        hurt.damage(place, damage)?;
    }
    let text = replies(&rt, alloc, &mut hurt, script)?;
    assert_eq!(rt; text.as_str(), "ok 1\nok\nno 18 label a\n");
    let mut failing = two_devices(alloc)?;
    failing.fail(A, place, u64::MAX, Fault::Failed)?;
    let text = replies(&rt, alloc, &mut failing, script)?;
    assert_eq!(rt; text.as_str(), "ok 1\nok\nno 17 fault a\n");
    Ok(())
}

#[test]
fn a_run_goes_on_without_a_device(rt: HostRuntime) -> Result<(), Fail> {
    let alloc = rt.alloc();
    let mut bank = two_devices(alloc)?;
    let text = replies(
        &rt,
        alloc,
        &mut bank,
        b"create tank 16 mirror a b\nwrite tank 0 c0ffee\nsync tank\n",
    )?;
    assert_eq!(rt; text.as_str(), "ok 1\nok\nok 2\n");
    let mut alone = MemBank::new(alloc);
    alone.add_image(
        name(alloc, b"a")?,
        SECTORS,
        bytes_of(alloc, &bank, A)?,
        Vec::new(alloc),
    )?;
    let script = b"import tank\nlogs tank\nread tank 0\nonline tank b\noffline tank a\n";
    let text = replies(&rt, alloc, &mut alone, script)?;
    assert_eq!(rt;
        text.as_str(),
        "ok 3\nok a=- b=3\nok c0ffee\nno 26 nodevice b\nno 8 required 1\n"
    );
    Ok(())
}

#[test]
fn a_stale_half_is_never_read(rt: HostRuntime) -> Result<(), Fail> {
    let alloc = rt.alloc();
    let mut bank = two_devices(alloc)?;
    let text = replies(
        &rt,
        alloc,
        &mut bank,
        b"create tank 16 mirror a b\nwrite tank 0 01\nsync tank\n",
    )?;
    assert_eq!(rt; text.as_str(), "ok 1\nok\nok 2\n");
    // b drops out
    let mut alone = MemBank::new(alloc);
    alone.add_image(
        name(alloc, b"a")?,
        SECTORS,
        bytes_of(alloc, &bank, A)?,
        Vec::new(alloc),
    )?;
    let text = replies(
        &rt,
        alloc,
        &mut alone,
        b"import tank\nwrite tank 0 02\nsync tank\nlogs tank\n",
    )?;
    assert_eq!(rt; text.as_str(), "ok 3\nok\nok 4\nok a=- b=3-4\n");
    // b comes back with its old bytes, and a is damaged at the block that b missed, in data sector 1
    let mut damage = Vec::new(alloc);
    damage.push(Damage {
        dev: A,
        from: 129,
        to: 129,
        fill: 0xdd,
    })?;
    let mut back = MemBank::new(alloc);
    back.add_image(
        name(alloc, b"a")?,
        SECTORS,
        bytes_of(alloc, &alone, A)?,
        damage,
    )?;
    back.add_image(
        name(alloc, b"b")?,
        SECTORS,
        bytes_of(alloc, &bank, B)?,
        Vec::new(alloc),
    )?;
    let script =
        b"import tank\nlogs tank\nread tank 0\noffline tank a\noffline tank b\nread tank 0\n";
    let text = replies(&rt, alloc, &mut back, script)?;
    assert_eq!(rt;
        text.as_str(),
        "ok 5\nok a=- b=3-4\nno 15 exhausted 0 0 a=mismatch,b=mismatch\nno 8 required 3\nok\nno 15 exhausted 0 0 a=mismatch,b=unreadable\n"
    );
    Ok(())
}
