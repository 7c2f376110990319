//! Runs of the program of which texts, lengths or faults are what matters.

use crate::session::{Faults, ROOM, Session};
use crate::texts::expanded;
use arrayvec::ArrayVec;
use std::alloc::Global;
use std::test::Fail;
use tty_host::Status;

/// Scripts as texts. A row is a command line, a boot text, a script, what is written, and numbers: the status, the calls at which the boot source,
/// the script and the sink fail, and how many bytes the sink takes. A number that is not there is 0: no fault, and room enough.
const SCRIPTS: &str = "
# Nothing is asked.
script b^^^^0
# The last close empties both queues, and the last line lacks its newline.
script b^^0 open /dev/tty7 w|0 open /dev/tty7 r|in tty7 4142|0 write 0 6162|0 close 0|take tty7 1|0 close 1|0 open /dev/tty7 rw n|0 read 0 9|take tty7 512^0 ok 0|0 ok 1|tty7 noted|tty7 noted|0 ok 2|0 ok 0|tty7 out 61|0 ok 0|0 ok 0|0 err EAGAIN not-ready|tty7 out -|^0
# Capital hex digits, no bytes, a part of a read, the highest slot, and a count of 0.
script b^^0 open /dev/tty7 rw|in tty7 4a4B4c|0 read 0 2|0 read 0 0|0 write 0 -|31 close 255|0 close 255|0 read 0 65535|^0 ok 0|tty7 noted|tty7 noted|tty7 noted|0 bytes 4a4b|0 bytes -|0 ok 0|31 gone|0 err EBADF bad-fd|0 err EINVAL size|^0
# Refusals up to a bad line.
script b^^0 read 3 5|0 open /dev/tty7 r n|0 write 0 61|0 read 0 513|0 read 0 5|1 close 0|0 forks|0 close 0|^0 err EBADF bad-fd|0 ok 0|0 err EBADF fd-mode|0 err EINVAL size|0 err EAGAIN not-ready|1 gone|line 7|^2
# A last line that lacks its newline is run, and nothing behind a bad line is.
script b^^0 sigtake|0 sigtake|0 jump|0 sigtake^0 ok 0|0 ok 0|line 3|^2
script b^^0 sigtake|0 sigtake|0 sigtake^0 ok 0|0 ok 0|0 ok 0|^0
";

/// Each way for a line to be bad. Nothing of it is run, and nothing behind it.
const BAD_LINES: &str = "
script b^^1 close 0||1 close 0|^1 gone|line 2|^2
script b^^1 close 0| |1 close 0|^1 gone|line 2|^2
script b^^1 close 0| 0 close 0|1 close 0|^1 gone|line 2|^2
script b^^1 close 0|0 close 0 |1 close 0|^1 gone|line 2|^2
script b^^1 close 0|0  close 0|1 close 0|^1 gone|line 2|^2
script b^^1 close 0|0\tclose 0|1 close 0|^1 gone|line 2|^2
script b^^1 close 0|0 close 0\r|1 close 0|^1 gone|line 2|^2
script b^^1 close 0|0 close 0\0|1 close 0|^1 gone|line 2|^2
script b^^1 close 0|0 close \x7f|1 close 0|^1 gone|line 2|^2
script b^^1 close 0|# a comment|1 close 0|^1 gone|line 2|^2
script b^^1 close 0|0|1 close 0|^1 gone|line 2|^2
script b^^1 close 0|0 jump|1 close 0|^1 gone|line 2|^2
script b^^1 close 0|0 close|1 close 0|^1 gone|line 2|^2
script b^^1 close 0|0 close 0 0|1 close 0|^1 gone|line 2|^2
script b^^1 close 0|0 close 256|1 close 0|^1 gone|line 2|^2
script b^^1 close 0|0 close 00|1 close 0|^1 gone|line 2|^2
script b^^1 close 0|0 close +1|1 close 0|^1 gone|line 2|^2
script b^^1 close 0|0 close -1|1 close 0|^1 gone|line 2|^2
script b^^1 close 0|0 close 0x1|1 close 0|^1 gone|line 2|^2
script b^^1 close 0|32 close 0|1 close 0|^1 gone|line 2|^2
script b^^1 close 0|00 close 0|1 close 0|^1 gone|line 2|^2
script b^^1 close 0|0 read 0 65536|1 close 0|^1 gone|line 2|^2
script b^^1 close 0|0 write 0 6|1 close 0|^1 gone|line 2|^2
script b^^1 close 0|0 write 0 6g|1 close 0|^1 gone|line 2|^2
script b^^1 close 0|0 open /dev/tty7|1 close 0|^1 gone|line 2|^2
script b^^1 close 0|0 open /dev/tty7 wr|1 close 0|^1 gone|line 2|^2
script b^^1 close 0|0 open /dev/tty7 rw 600|1 close 0|^1 gone|line 2|^2
script b^^1 close 0|0 mkdir /tmp/d|1 close 0|^1 gone|line 2|^2
script b^^1 close 0|0 umask 1000|1 close 0|^1 gone|line 2|^2
script b^^1 close 0|0 revoke|1 close 0|^1 gone|line 2|^2
script b^^1 close 0|in tty7 -|1 close 0|^1 gone|line 2|^2
script b^^1 close 0|in tty8 61|1 close 0|^1 gone|line 2|^2
script b^^1 close 0|in tty7 6|1 close 0|^1 gone|line 2|^2
script b^^1 close 0|take tty7 0|1 close 0|^1 gone|line 2|^2
script b^^1 close 0|take tty7 513|1 close 0|^1 gone|line 2|^2
";

/// The longest lines and the longest run.
const LENGTHS: &str = "
# A write of 513 bytes is a bad line, and one of 512 is whole. The longest line has 4,096 bytes: one of them is bad by its word,
# a number that is too great, and one with a byte more before it is looked at.
script b^^0 write 0 ~61*512~|^0 err EBADF bad-fd|^0
script b^^0 write 0 ~61*513~|^line 1|^2
script b^^~7*4096~|1 close 0|^line 1|^2
script b^^~7*4097~|1 close 0|^line 1|^2
script b^^~7*10000~|1 close 0|^line 1|^2
# 262,144 events are the most that a run has.
script b^^~take tty7 1|*262144~^~tty7 out -|*262144~^0
script b^^~take tty7 1|*262145~^~tty7 out -|*262144~full|^6
script b^^~0 sigtake|*262143~^~0 ok 0|*262143~^0
script b^^~0 sigtake|*262144~^~0 ok 0|*262144~^0
script b^^~0 sigtake|*262145~^~0 ok 0|*262144~full|^6
";

/// Boot texts over the empty script.
const BOOTS: &str = "
script b^^^^0
script b^recheck on|^^^0
script b^recheck on^^^0
script b^recheck off|^^^0
script b^recheck off^^^0
script b^|^^boot line 1|^2
script b^||^^boot line 1|^2
script b^|recheck on|^^boot line 1|^2
script b^recheck on||^^boot line 2|^2
script b^recheck on|recheck on|^^boot line 2|^2
script b^recheck on|recheck off^^boot line 2|^2
script b^recheck off|recheck on|recheck on^^boot line 2|^2
script b^recheck off|user|recheck on^^boot line 2|^2
script b^recheck|^^boot line 1|^2
script b^recheck  on^^boot line 1|^2
script b^ recheck on^^boot line 1|^2
script b^recheck on ^^boot line 1|^2
script b^recheck\ton^^boot line 1|^2
script b^recheck on\r|^^boot line 1|^2
script b^Recheck on^^boot line 1|^2
script b^recheck onn^^boot line 1|^2
script b^recheck o^^boot line 1|^2
script b^recheck maybe|recheck on^^boot line 1|^2
script b^recheck on|0 close 0|^^boot line 2|^2
# A boot text has at most 1,048,832 bytes, so 2,049 pieces of 512 are enough to see that it is none, and no further one is read.
script b^~x*2000000~^^^3 2049
script b^~x*2000000~^^boot line 1|^2 2050
";

/// Sources and sinks that fail.
const FAULTS: &str = "
# The boot text of a file, and none.
script b^^0 open /dev/tty7 rw|0 write 0 6869|take tty7 9|^0 ok 0|0 ok 2|tty7 out 6869|^0
script^^0 open /dev/tty7 rw|0 write 0 6869|take tty7 9|^0 ok 0|0 ok 2|tty7 out 6869|^0
# The sink fails at its second call: answers are written before each read of the script, which takes at most 16,384 bytes.
script b^^~0 sigtake|*3000~^~0 ok 0|*1638~^4 0 0 2
# So is the script, at its second call: all answers to what was read are written.
script b^^~0 sigtake|*3000~^~0 ok 0|*1638~^3 0 2
# The sink fails at its first call, and the script at its first and the boot source; a sink takes nine bytes.
script b^^0 open /dev/tty7 rw|0 write 0 6869|take tty7 9|^^4 0 0 1
script b^^0 open /dev/tty7 rw|0 write 0 6869|take tty7 9|^^3 0 1
script b^^0 open /dev/tty7 rw|0 write 0 6869|take tty7 9|^^3 1
script b^^0 open /dev/tty7 rw|0 write 0 6869|take tty7 9|^0 ok 0|0 ^4 0 0 0 9
# A bad boot text over a script that fails, the same with a sink that fails, and a boot source that fails at its second call.
script b^recheck off||^0 open /dev/tty7 rw|0 write 0 6869|take tty7 9|^boot line 2|^2 0 1
script b^|^0 open /dev/tty7 rw|0 write 0 6869|take tty7 9|^^4 0 1 1
script b^recheck on^0 open /dev/tty7 rw|0 write 0 6869|take tty7 9|^^3 2 1
";

/// The parts of a row.
fn fields_of(row: &str) -> ArrayVec<&str, 5> {
    let mut fields = ArrayVec::new();
    for field in row.split('^') {
        let _ = fields.try_push(field);
    }
    fields
}

/// The numbers of a row: the status, the faults and the room.
fn numbers_of(text: &str) -> [u64; 5] {
    let mut numbers = [0; 5];
    for (place, word) in text.split(' ').enumerate() {
        if place < 5 {
            numbers[place] = word.parse::<u64>().unwrap_or(0);
        }
    }
    numbers
}

/// The texts of a row.
#[derive(Drop)]
struct Run<'a> {
    command: &'a str,
    boot_text: &'a str,
    script: &'a str,
    answers: &'a str,
}

/// Whether the program writes what a row says.
fn is_right(alloc: Global, run: &Run, numbers: [u64; 5]) -> Result<bool, Fail> {
    let [status, boot, script, sink, room] = numbers;
    let boot_text = expanded(alloc, run.boot_text)?;
    let lines = expanded(alloc, run.script)?;
    let answers = expanded(alloc, run.answers)?;
    let session = Session {
        command: run.command,
        boot_text: &boot_text,
        script: &lines,
        faults: Faults { boot, script, sink },
        room: if room == 0 { ROOM } else { room as usize },
    };
    Ok(session.writes(alloc, &answers, status)?)
}

fn is_right_row(alloc: Global, row: &str) -> Result<bool, Fail> {
    match fields_of(row).as_slice() {
        [command, boot_text, script, answers, numbers] => {
            let run = Run {
                command,
                boot_text,
                script,
                answers,
            };
            is_right(alloc, &run, numbers_of(numbers))
        }
        _ => Ok(row.is_empty() || row.starts_with('#')),
    }
}

const TABLES: [&str; 5] = [SCRIPTS, BAD_LINES, LENGTHS, BOOTS, FAULTS];

#[test]
fn runs_of_texts_lengths_and_faults(rt: HostRuntime) -> Result<(), Fail> {
    for table in &TABLES {
        for row in table.split_terminator('\n') {
            let is_right = is_right_row(rt.alloc(), row)?;
            assert!(rt; is_right, "{row}");
        }
    }
    Ok(())
}

/// Words of no form, and forms that are not built yet.
const NO_FORM: [&str; 16] = [
    "script a b",
    "jump",
    "",
    "jump b",
    "session b",
    "Script",
    "load",
    "load 0",
    "load 0 7 8",
    "load 262141 1",
    "load 00 1",
    "load 1 07",
    "load -1 7",
    "load 1 +7",
    "load 0 18446744073709551616",
    "Load 0 7",
];

const USAGE: &str =
    "usage: revtty script [BOOT] | session [BOOT] | load N START | serve DIR BOOT\n";

/// Words of no form give the usage line, and so nothing is read.
#[test]
fn usage(rt: HostRuntime) -> Result<(), Fail> {
    for command in &NO_FORM {
        let session = Session {
            command,
            boot_text: b"",
            script: b"",
            faults: Faults {
                boot: 1,
                script: 1,
                sink: 0,
            },
            room: ROOM,
        };
        let is_told = session.writes(rt.alloc(), USAGE.as_bytes(), 1)?;
        assert!(rt; is_told, "{command}");
    }
    Ok(())
}

/// The summary of a load that draws no event: of the answer lines `0 ok 0`, `0 ok 2`, `0 ok 3` and `0 ok 4`, whose digest was
/// made by another program.
const EMPTY_LOAD: &str = "events 4
denied 0
slept 0
moved 0
digest aad2d746d99800c3ab28905c7fae19540312be764ae35603ed2ea426e1b1bf90
";

/// Whether a load reads neither boot text nor source, and writes these bytes and ends so, where a write fails.
fn loads(
    alloc: Global,
    command: &str,
    sink: u64,
    written: &str,
    status: u64,
) -> Result<bool, Fail> {
    let session = Session {
        command,
        boot_text: b"",
        script: b"",
        faults: Faults {
            boot: 1,
            script: 1,
            sink,
        },
        room: ROOM,
    };
    Ok(session.writes(alloc, written.as_bytes(), status)?)
}

#[test]
fn empty_loads(rt: HostRuntime) -> Result<(), Fail> {
    for command in &["load 0 7", "load 0 0", "load 0 18446744073709551615"] {
        let is_right = loads(rt.alloc(), command, 0, EMPTY_LOAD, 0)?;
        assert!(rt; is_right, "{command}");
    }
    let is_stopped = loads(rt.alloc(), "load 0 7", 1, "", 4)?;
    assert!(rt; is_stopped);
    Ok(())
}

/// The numbers of the statuses that no run here has.
#[test]
fn other_statuses(rt: HostRuntime) {
    assert!(rt; Status::Memory.code() == 5 && Status::NoWorker.code() == 8);
}
