//! The adapters over files of the system, in a folder of their own, failures included.

use super::copies::copy;
use super::expect;
use exr_base::{Failed, Refusal};
use exr_outside::{
    CutShort, Files, OutSink, Printer, RealFiles, RealWorld, Sink, Source, append_all, read_full,
    write_all_at,
};
use std::fs::File;
use std::process::Abort;
use std::test::Fail;
use std::{env, fs, process};

#[test]
fn adapters_over_the_system(rt: HostRuntime) -> Result<(), Fail> {
    let alloc = rt.alloc();
    let name = format!(in alloc; "exr_outside_{}", process::id(rt.process()))?;
    let folder = env::temp_dir(&rt)?.join(alloc, name.as_str())?;
    fs::create_dir_all(&rt, folder.as_path())?;
    in_folder(&rt, folder.as_str())?;
    fs::remove_dir_all(&rt, folder.as_path())?;
    Ok(())
}

fn in_folder<R: Abort + Print + AllocGlobal + std::rt::Files<File = File>>(
    rt: &R,
    folder: &str,
) -> Result<(), Fail> {
    let alloc = rt.alloc();
    let from = format!(in alloc; "{folder}/from")?;
    let to = format!(in alloc; "{folder}/to")?;
    fs::write(rt, from.as_str(), b"some bytes")?;
    copies_and_refuses(rt, folder, from.as_str(), to.as_str())?;
    reads(rt, folder, from.as_str())?;
    writes(rt, to.as_str())?;
    prints(rt);
    Ok(())
}

fn copies_and_refuses<R: Abort + Print + AllocGlobal + std::rt::Files<File = File>>(
    rt: &R,
    folder: &str,
    from: &str,
    to: &str,
) -> Result<(), Fail> {
    let alloc = rt.alloc();
    let mut files = RealFiles::new(rt, alloc);
    let answer = copy::<RealWorld, _>(alloc, &mut files, from, to);
    expect(rt, 0, answer == Ok(()));
    expect(
        rt,
        1,
        fs::read(rt, to)?.as_slice() == b"some bytes".as_slice(),
    );
    expect(rt, 2, files.read_faults() == 0 && files.write_faults() == 0);

    let missing = format!(in alloc; "{folder}/missing")?;
    let failed = Err(Refusal::Fault(Failed));
    let answer = copy::<RealWorld, _>(alloc, &mut files, missing.as_str(), to);
    expect(rt, 3, answer == failed);
    expect(rt, 4, files.read_faults() == 1 && files.write_faults() == 0);
    let answer = copy::<RealWorld, _>(alloc, &mut files, from, folder);
    expect(rt, 5, answer == failed);
    expect(rt, 6, files.read_faults() == 1 && files.write_faults() == 1);
    let answer = copy::<RealWorld, _>(alloc, &mut files, from, "/dev/full");
    expect(rt, 7, answer == failed);
    expect(rt, 8, files.read_faults() == 1 && files.write_faults() == 2);
    Ok(())
}

fn reads<R: Abort + Print + AllocGlobal + std::rt::Files<File = File>>(
    rt: &R,
    folder: &str,
    from: &str,
) -> Result<(), Fail> {
    let mut files = RealFiles::new(rt, rt.alloc());
    let mut source = files.open(from)?;
    expect(rt, 0, source.name() == from);
    expect(rt, 1, source.len() == Ok(10));
    let mut into = [b'.'; 8];
    expect(rt, 2, read_full(&mut source, 5, &mut into) == Ok(5));
    expect(rt, 3, into == *b"bytes...");
    expect(rt, 4, source.read_at(1 << 63, &mut into) == Ok(0));
    expect(rt, 5, source.faults() == 0);
    files.back_in(source);
    expect(rt, 6, files.read_faults() == 0);

    let mut source = files.open(folder)?;
    expect(rt, 7, source.read_at(0, &mut into[..0]) == Ok(0));
    expect(rt, 8, source.read_at(0, &mut into) == Err(Failed));
    expect(rt, 9, source.faults() == 1);
    files.back_in(source);
    expect(rt, 10, files.read_faults() == 1);
    Ok(())
}

fn writes<R: Abort + Print + AllocGlobal + std::rt::Files<File = File>>(
    rt: &R,
    to: &str,
) -> Result<(), Fail> {
    let mut files = RealFiles::new(rt, rt.alloc());
    let mut sink = files.create(to)?;
    expect(rt, 0, sink.name() == to);
    expect(rt, 1, append_all(&mut sink, b"abcd") == Ok(()));
    expect(rt, 2, write_all_at(&mut sink, 1, b"BC") == Ok(()));
    expect(rt, 3, append_all(&mut sink, b"e") == Ok(()));
    expect(rt, 4, sink.append(b"") == Ok(0));
    expect(rt, 5, sink.write_at(u64::MAX, b"") == Ok(0));
    expect(rt, 6, sink.write_at(1 << 63, b"x") == Err(Failed));
    expect(rt, 7, sink.faults() == 1);
    files.back_out(sink);
    expect(rt, 8, files.write_faults() == 1);
    expect(rt, 9, fs::read(rt, to)?.as_slice() == b"aBCde".as_slice());

    let mut full = files.create("/dev/full")?;
    expect(rt, 10, full.append(b"") == Ok(0));
    expect(
        rt,
        11,
        append_all(&mut full, b"x") == Err(CutShort { taken: 0 }),
    );
    files.back_out(full);
    expect(rt, 12, files.write_faults() == 2);
    Ok(())
}

fn prints<R: Abort + Print + AllocGlobal + std::rt::Files<File = File>>(rt: &R) {
    let mut out = OutSink::new(rt);
    expect(rt, 0, append_all(&mut out, b"a line\n") == Ok(()));
    expect(rt, 1, out.append(b"") == Ok(0) && out.faults() == 0);
}
