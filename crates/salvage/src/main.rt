#![tactic(auto)]
// ./run salvage copies what is sound of the capture on standard input to the file salvage.out, and prints a line for each longest run of octets
// that it skipped: the first position, from 0, a space, and the count. A capture of more than 65,536 octets is refused: 24 is printed, and
// salvage.out is empty. It is empty as well if reading or writing the octets fails; standard error says what failed.
use skelmarix::{CAPTURE_OCTETS, Refusal, SkippedRun};
use std::fs::File;
use std::io::{Read, Write};
use std::{fs, io};

// One octet more than a capture may have: so a longer one is noticed.
const ROOM: usize = CAPTURE_OCTETS + 1;

// Past this place of the text there may be too little room for another line.
const NEARLY: usize = 65500;

// ---- input
// Says on standard error what failed, and why.
fn fail(rt: HostRuntime, what: &str, e: io::Error) {
    let _ = eprintln!(rt; "{what}: {e}");
}

// Reads to the end of standard input, or until the buffer is full; how many octets were read.
fn read_all(rt: HostRuntime, file: &mut [u8]) -> io::Result<usize> {
    let mut count = 0;
    // how often it reads is not known before
    while count < file.len() {
        match rt.stdin().read(&mut file[count..])? {
            0 => return Ok(count),
            n => count += n,
        }
    }
    Ok(count)
}

// ---- the file
// Makes the file, empty. Nothing that an earlier run left can be taken for what this one copies.
fn emptied(rt: HostRuntime) -> bool {
    match File::create(&rt, "salvage.out") {
        Ok(_) => true,
        Err(e) => {
            fail(rt, "salvage.out", e);
            false
        }
    }
}

// Writes octets to an open file and closes it. Closing tells no error, so what it could tell is asked for before: whether they are on the disk. Of
// what is on no disk, as a device, that cannot be asked, and it is no error.
fn written(mut file: File, octets: &[u8]) -> io::Result<()> {
    file.write_all(octets)?;
    match file.sync_all() {
        Ok(()) => Ok(()),
        Err(e) => match e.kind() {
            io::ErrorKind::InvalidInput => Ok(()),
            _ => Err(e),
        },
    }
}

// Makes salvage.out of octets. They are written under another name first, so that no part of them is ever taken for all.
fn kept(rt: HostRuntime, octets: &[u8]) -> bool {
    let file = match File::create(&rt, "salvage.out.new") {
        Ok(file) => file,
        Err(e) => {
            fail(rt, "salvage.out.new", e);
            return false;
        }
    };
    if let Err(e) = written(file, octets) {
        fail(rt, "salvage.out.new", e);
        let _ = fs::remove_file(&rt, "salvage.out.new");
        return false;
    }
    if let Err(e) = fs::rename(&rt, "salvage.out.new", "salvage.out") {
        fail(rt, "salvage.out", e);
        let _ = fs::remove_file(&rt, "salvage.out.new");
        return false;
    }
    true
}

// ---- what is printed
// Writes the text so far; if that fails, says so.
fn printed(rt: HostRuntime, text: &[u8], end: usize) -> bool {
    match rt.write_all(skelmarix::first_octets(text, end)) {
        Ok(()) => true,
        Err(e) => {
            fail(rt, "salvage: write", e);
            false
        }
    }
}

// A line for a run, behind the text so far.
fn line(run: SkippedRun, text: &mut [u8], end: usize) -> usize {
    let at = answers::number(run.first as u64, text, end);
    let at = answers::say(b" ", text, at);
    let at = answers::number(run.count as u64, text, at);
    answers::end(text, at)
}

// A line for each run of octets that was skipped.
fn tell(rt: HostRuntime, file: &[u8], text: &mut [u8]) {
    let mut from = 0;
    let mut end = 0;
    while from < file.len() {
        let run = skelmarix::next_skipped(file, from);
        if run.count == 0 {
            break;
        }
        from = run.next;
        end = line(run, text, end);
        if NEARLY < end {
            if !printed(rt, text, end) {
                return;
            }
            end = 0;
        }
    }
    printed(rt, text, end);
}

// The number of the refusal, alone; and on standard error the reason.
fn refuse(rt: HostRuntime, why: Refusal) {
    let _ = println!(rt; "{}", why.number());
    let _ = eprintln!(rt; "salvage: refused, a capture has at most 65,536 octets");
}

// ---- the program
// Keeps what is sound of a file, and tells what is skipped. There is room for all of the file, since the buffers are of one length.
fn salvage(rt: HostRuntime, file: &[u8], space: &mut [u8], text: &mut [u8]) {
    let n = file.len();
    if space.len() < n {
        return;
    }
    let answer = skelmarix::salvage(file, &mut space[0..n]);
    match answer {
        Err(why) => refuse(rt, why),
        Ok(copied) => {
            if kept(rt, skelmarix::first_octets(space, copied)) {
                tell(rt, file, text);
            }
        }
    }
}

fn main(rt: HostRuntime) {
    let mut file = [0u8; ROOM];
    let mut space = [0u8; ROOM];
    let mut text = [0u8; 65536];
    let read = match read_all(rt, &mut file) {
        Ok(count) => Some(count),
        Err(e) => {
            fail(rt, "salvage: read", e);
            None
        }
    };
    // the file is emptied also if reading failed
    if !emptied(rt) {
        return;
    }
    if let Some(count) = read {
        salvage(
            rt,
            skelmarix::first_octets(&file, count),
            &mut space,
            &mut text,
        );
    }
}
