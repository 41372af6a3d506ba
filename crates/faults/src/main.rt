// Hands damaged setups and messages to the readers, and tables and messages to the writers, and writes each with its answer: the number of the refusal and its
// place, `0 at 0` where nothing is refused. The comments quote document 01 where they name no other.
#![tactic(auto)]

use refusal::{Reason, Refusal};
use std::fmt::Display;
use std::{fmt, io};
use table::Table;

// An outcome as it is written here: by the number and the place that C is told, 0 and 0 where nothing is refused.
#[derive(Drop)]
struct Answer(Refusal);

impl Answer {
    fn of<A: Drop, E: Into<Refusal>>(outcome: Result<A, E>) -> Answer {
        match outcome {
            Ok(_) => Answer(Refusal::NONE),
            Err(e) => Answer(e.into()),
        }
    }
}

impl Display for Answer {
    fn fmt<W: fmt::Write>(&self, f: &mut fmt::Formatter<W>) -> fmt::Result {
        write!(f, "{} at {}", self.0.number, self.0.place)
    }
}

fn show<A: Drop, E: Into<Refusal>>(
    rt: &impl Print,
    name: impl Display + Drop,
    outcome: Result<A, E>,
) -> io::Result<()> {
    println!(rt; "{name}: {}", Answer::of(outcome))
}

// SETUPS

// A piece of a setup that stands at a place, and its values in words. The place stays beside the bytes: it may lie past the end, where `&mut s[at..]` is no
// slice.
// Servers and tasks differ in the width of one field and in each word: one generic record would take the words as parameters, and each row below its types.
trait Record: Display + Drop {
    fn put(&self, s: &mut [u8], at: u16);
}

// "Setup: total length (2 bytes), version 1, number of servers"
#[derive(Clone, Copy)]
struct Start(u16, u8, u8);

impl Record for Start {
    fn put(&self, s: &mut [u8], at: u16) {
        let at = usize::from(at);
        field::put(s, at, self.0);
        field::put(s, at + 2, self.1);
        field::put(s, at + 3, self.2);
    }
}

impl Display for Start {
    fn fmt<W: fmt::Write>(&self, f: &mut fmt::Formatter<W>) -> fmt::Result {
        let Start(length, version, servers) = *self;
        write!(f, "length {length}, version {version}, servers {servers}")
    }
}

// "then each server: kind, number of tasks, P (4), C (4)"
#[derive(Clone, Copy)]
struct Server(u8, u8, u32, u32);

impl Record for Server {
    fn put(&self, s: &mut [u8], at: u16) {
        let at = usize::from(at);
        field::put(s, at, self.0);
        field::put(s, at + 1, self.1);
        field::put(s, at + 2, self.2);
        field::put(s, at + 6, self.3);
    }
}

impl Display for Server {
    fn fmt<W: fmt::Write>(&self, f: &mut fmt::Formatter<W>) -> fmt::Result {
        let Server(kind, tasks, period, budget) = *self;
        write!(f, "kind {kind}, tasks {tasks}, P {period}, C {budget}")
    }
}

// "then its tasks: release (0 on arrival, 1 periodic), E (4), T (4), O (4)"
#[derive(Clone, Copy)]
struct Task(u8, u32, u32, u32);

impl Record for Task {
    fn put(&self, s: &mut [u8], at: u16) {
        let at = usize::from(at);
        field::put(s, at, self.0);
        field::put(s, at + 1, self.1);
        field::put(s, at + 5, self.2);
        field::put(s, at + 9, self.3);
    }
}

impl Display for Task {
    fn fmt<W: fmt::Write>(&self, f: &mut fmt::Formatter<W>) -> fmt::Result {
        let Task(release, work, period, offset) = *self;
        write!(f, "release {release}, E {work}, T {period}, O {offset}")
    }
}

// "Setup, 50 bytes: server 0 deferrable, P 4, C 2, one task on arrival, E 3; server 1 idling, P 5, C 2, one periodic task, E 1, T 5, O 0."
fn worked() -> [u8; 50] {
    let mut s = [0; 50];
    Start(50, 1, 2).put(&mut s, 0);
    Server(2, 1, 4, 2).put(&mut s, 4);
    Task(0, 3, 0, 0).put(&mut s, 14);
    Server(1, 1, 5, 2).put(&mut s, 27);
    Task(1, 1, 5, 0).put(&mut s, 37);
    s
}

// The worked setup up to a place, and from there on one with every field wrong.
fn damaged(place: usize) -> [u8; 50] {
    let mut s = [0; 50];
    Start(49, 2, 0).put(&mut s, 0);
    Server(4, 9, 0, 0).put(&mut s, 4);
    Task(2, 0, 1, 1).put(&mut s, 14);
    Server(0, 255, 1_000_001, 6).put(&mut s, 27);
    Task(255, 1_000_001, 0, 1_000_001).put(&mut s, 37);
    for (wrong, right) in s.iter_mut().zip(&worked()).take(place) {
        *wrong = *right;
    }
    s
}

// "Setup: 1 to 4, then records in file order, each whole (5) before its fields in file order": the first fault of many is the answer.
fn order(rt: &impl Print) -> io::Result<()> {
    for (name, place) in [
        ("the length", 0),
        ("the version", 2),
        ("the number of servers", 3),
        ("server 0's kind", 4),
        ("server 0's number of tasks", 5),
        ("server 0's P", 6),
        ("server 0's C", 10),
        ("server 0's task's release", 14),
        ("server 0's task's E", 15),
        ("server 0's task's T", 19),
        ("server 0's task's O", 23),
        ("server 1's kind", 27),
        ("server 1's number of tasks", 28),
        ("server 1's P", 29),
        ("server 1's C", 33),
        ("server 1's task's release", 37),
        ("server 1's task's E", 38),
        ("server 1's task's T", 42),
        ("server 1's task's O", 46),
        ("the end", 50),
    ] {
        show(
            rt,
            format_args!("wrong from {name} on"),
            setup::read(&damaged(place)),
        )?;
    }
    Ok(())
}

// "a server or task record runs past the end", "the record's start for 5": the first n bytes of a setup that is wrong from a place on, with n as the length.
fn cut_records(rt: &impl Print) -> io::Result<()> {
    show(rt, "3 bytes, all wrong", setup::read(front(&damaged(0), 3)))?;
    for (name, place, n) in [
        ("3 bytes, the version wrong", 2, 3),
        ("4 bytes, the version wrong", 2, 4),
        ("4 bytes, the number of servers wrong", 3, 4),
        ("server 0's record cut, its kind wrong", 4, 13),
        ("server 0's record whole, its kind wrong", 4, 14),
        ("server 0's C wrong, its task cut", 10, 26),
        ("server 0's task cut, its release wrong", 14, 26),
        ("server 0's task whole, its release wrong", 14, 27),
        ("server 0's task's O wrong, server 1 cut", 23, 36),
        ("server 1's record cut, its kind wrong", 27, 36),
        ("server 1's record whole, its kind wrong", 27, 37),
        ("server 1's C wrong, its task cut", 33, 49),
        ("server 1's task cut, its release wrong", 37, 49),
    ] {
        let mut s = damaged(place);
        field::put(&mut s, 0, n);
        show(rt, name, setup::read(front(&s, n)))?;
    }
    Ok(())
}

// The first n bytes, or all where there are fewer: `get`, with the number as the cases have it.
fn front(s: &[u8], n: u16) -> &[u8] {
    s.get(..usize::from(n)).unwrap_or(s)
}

// The worked setup with another record at a place.
fn with(rt: &impl Print, place: u16, record: impl Record) -> io::Result<()> {
    let mut s = worked();
    record.put(&mut s, place);
    show(rt, format_args!("at {place} {record}"), setup::read(&s))
}

// "0 or more than 8 servers", "more than 8 tasks"; more than the file has are 5, fewer 13. With 2 tasks server 0 takes server 1's record for a task's, and with
// none its own task's record for a server's.
fn counts(rt: &impl Print) -> io::Result<()> {
    for start in [
        Start(50, 1, 2),
        Start(49, 1, 2),
        Start(51, 1, 2),
        Start(50, 0, 9),
        Start(50, 1, 0),
        Start(50, 1, 1),
        Start(50, 1, 3),
        Start(50, 1, 8),
        Start(50, 1, 9),
    ] {
        let mut s = worked();
        start.put(&mut s, 0);
        show(rt, start, setup::read(&s))?;
    }
    for (place, server) in [
        (27, Server(1, 0, 5, 2)),
        (27, Server(1, 2, 5, 2)),
        (27, Server(1, 8, 5, 2)),
        (27, Server(1, 9, 0, 0)),
        (4, Server(2, 2, 4, 2)),
        (4, Server(2, 0, 4, 2)),
    ] {
        with(rt, place, server)?;
    }
    Ok(())
}

// "kind not 1 or 2", and "Setup code 6 now allows 3." (document 02, #101); "P out of range", "C is 0 or above P"
fn server_values(rt: &impl Print) -> io::Result<()> {
    for (place, server) in [
        (4, Server(0, 1, 4, 2)),
        (4, Server(1, 1, 4, 2)),
        (4, Server(3, 1, 4, 2)),
        (4, Server(3, 9, 4, 2)),
        (4, Server(4, 1, 4, 2)),
        (4, Server(4, 9, 4, 2)),
        (4, Server(255, 1, 4, 2)),
        (27, Server(3, 1, 5, 2)),
        (27, Server(4, 1, 5, 2)),
        (4, Server(2, 1, 0, 0)),
        (4, Server(2, 1, 1, 1)),
        (4, Server(2, 1, 4, 0)),
        (4, Server(2, 1, 4, 4)),
        (4, Server(2, 1, 4, 5)),
        (4, Server(2, 1, 4, 4_294_967_295)),
        (4, Server(2, 1, 1_000_000, 1_000_000)),
        (4, Server(2, 1, 1_000_000, 1_000_001)),
        (4, Server(2, 1, 1_000_001, 1_000_001)),
        (4, Server(2, 1, 4_294_967_295, 0)),
    ] {
        with(rt, place, server)?;
    }
    Ok(())
}

// "release not 0 or 1", "E out of range", "T or O wrong for the release"; "On arrival, T and O must be 0."
fn task_values(rt: &impl Print) -> io::Result<()> {
    for (place, task) in [
        (37, Task(2, 0, 5, 0)),
        (37, Task(1, 0, 0, 0)),
        (37, Task(1, 1_000_000, 5, 0)),
        (37, Task(1, 1_000_001, 0, 0)),
        (37, Task(1, 1, 0, 1_000_001)),
        (37, Task(1, 1, 1, 0)),
        (37, Task(1, 1, 1, 2)),
        (37, Task(1, 1, 1_000_000, 1_000_000)),
        (37, Task(1, 1, 1_000_001, 1_000_001)),
        (37, Task(1, 1, 1_000_000, 1_000_001)),
        (37, Task(0, 1, 5, 0)),
        (37, Task(0, 1, 0, 0)),
        (14, Task(0, 1_000_000, 0, 0)),
        (14, Task(0, 1_000_001, 1, 1)),
        (14, Task(0, 3, 1, 1)),
        (14, Task(0, 3, 0, 1)),
        (14, Task(1, 3, 0, 0)),
    ] {
        with(rt, place, task)?;
    }
    Ok(())
}

// The first n bytes of the worked setup, with its own length and with n as the length.
fn cuts(rt: &impl Print) -> io::Result<()> {
    for n in 0..50 {
        let mut s = worked();
        show(
            rt,
            format_args!("50 stated, {n} given"),
            setup::read(front(&s, n)),
        )?;
        field::put(&mut s, 0, n);
        show(
            rt,
            format_args!("{n} stated and given"),
            setup::read(front(&s, n)),
        )?;
    }
    Ok(())
}

// "the first byte left for 13", and 13 last
fn appended(rt: &impl Print) -> io::Result<()> {
    let mut s = [0; 51];
    s[..50].copy_from_slice(&worked());
    show(rt, "50 stated, 51 given", setup::read(&s))?;
    field::put(&mut s, 0, 51u16);
    show(rt, "51 stated and given", setup::read(&s))?;
    Task(1, 1, 5, 1_000_001).put(&mut s, 37);
    show(rt, "51 stated and given, O 1000001", setup::read(&s))
}

// "The longest is 916 bytes.": eight servers with eight tasks each.
fn longest(s: &mut [u8], stated: u16) {
    let most = 1_000_000;
    Start(stated, 1, 8).put(s, 0);
    for i in 0..8 {
        let at = 4 + i * 114;
        Server(1, 8, most, most).put(s, at);
        for k in 0..8 {
            Task(1, most, most, most).put(s, at + 10 + k * 13);
        }
    }
}

fn long(rt: &impl Print) -> io::Result<()> {
    let mut s = [0; 917];
    longest(&mut s, 915);
    show(
        rt,
        "longest, 915 stated and given",
        setup::read(front(&s, 915)),
    )?;
    longest(&mut s, 916);
    show(
        rt,
        "longest, 916 stated and given",
        setup::read(front(&s, 916)),
    )?;
    show(rt, "longest, 916 stated, 917 given", setup::read(&s))?;
    longest(&mut s, 917);
    show(rt, "longest, 917 stated and given", setup::read(&s))
}

// "stated length differs from what was given": 70,000 is 4,464 above what two bytes can count.
fn too_long(rt: &impl Print) -> io::Result<()> {
    let mut s = [0; 70_000];
    longest(&mut s, 65_535);
    show(
        rt,
        "longest, 65535 stated and given",
        setup::read(front(&s, 65_535)),
    )?;
    show(rt, "longest, 65535 stated, 70000 given", setup::read(&s))?;
    longest(&mut s, 4_464);
    show(rt, "longest, 4464 stated, 70000 given", setup::read(&s))
}

// MESSAGES

// "Messages: under 2 bytes 14, then 15, under 6 bytes 14, 16, 17.": every length up to seven. "The message reader doesn't look past the sixth byte."
fn messages(rt: &impl Print) -> io::Result<()> {
    for (name, s) in [
        ("wrong from length on", b"\x00\x07\x02\x03\x00\x08\xff"),
        ("wrong from version on", b"\x00\x06\x02\x03\x00\x08\xff"),
        ("kind 3", b"\x00\x06\x01\x03\x00\x08\xff"),
        ("run 8", b"\x00\x06\x01\x01\x00\x08\xff"),
    ] {
        for n in 0..8 {
            show(
                rt,
                format_args!("{name}, given {n}"),
                message::read(front(s, n)),
            )?;
        }
    }
    for (name, s) in [
        ("length 5", b"\x00\x05\x01\x01\x00\x08"),
        ("length 262", b"\x01\x06\x01\x01\x00\x08"),
        ("length 1536", b"\x06\x00\x01\x01\x00\x08"),
        ("version 0, kind 0", b"\x00\x06\x00\x00\x00\x08"),
        ("kind 0", b"\x00\x06\x01\x00\x00\x08"),
        ("run 65535", b"\x00\x06\x01\x01\xff\xff"),
        ("arrival 255 255", b"\x00\x06\x01\x02\xff\xff"),
    ] {
        show(rt, name, message::read(s))?;
    }
    Ok(())
}

// WRITERS

// What a writer answered, and whether the buffer then holds the right bytes.
fn written(
    rt: &impl Print,
    name: impl Display + Drop,
    outcome: Result<usize, Reason>,
    out: &[u8],
    right: &[u8],
) -> io::Result<()> {
    let room = out.len();
    let length = outcome.unwrap_or(0);
    let found = if out == right { "same" } else { "differs" };
    println!(rt;
        "{name} into {room}: {}, written {length}, {found}",
        Answer::of(outcome)
    )
}

fn write_setup(
    rt: &impl Print,
    name: &str,
    t: &Table,
    out: &mut [u8],
    right: &[u8],
) -> io::Result<()> {
    written(rt, name, setup::write(t, out), out, right)
}

// A number and no kind: the writer refuses those that are none.
fn write_message(rt: &impl Print, kind: u8, out: &mut [u8], right: &[u8]) -> io::Result<()> {
    let outcome = message::write(kind, 0, 8, out);
    written(rt, format_args!("kind {kind}"), outcome, out, right)
}

// The table of a setup that is not refused.
fn table_of(s: &[u8]) -> Table {
    setup::read(s).unwrap_or(Table::zero())
}

// "Writers leave bytes past the output unchanged": they are 255 here.
fn tables(rt: &impl Print) -> io::Result<()> {
    let s = worked();
    let t = table_of(&s);
    let mut right = [255; 51];
    right[..50].copy_from_slice(&s);
    write_setup(rt, "worked", &t, &mut [255; 49], &[255; 49])?;
    write_setup(rt, "worked", &t, &mut [255; 50], &s)?;
    write_setup(rt, "worked", &t, &mut [255; 51], &right)
}

// A setup with a polling server (kind 3) is written as it was read.
fn polling_table(rt: &impl Print) -> io::Result<()> {
    let mut s = worked();
    Server(3, 1, 4, 2).put(&mut s, 4);
    write_setup(rt, "polling", &table_of(&s), &mut [255; 50], &s)
}

fn longest_table(rt: &impl Print) -> io::Result<()> {
    let mut s = [255; 917];
    longest(&mut s, 916);
    let t = table_of(front(&s, 916));
    write_setup(rt, "longest", &t, &mut [255; 915], &[255; 915])?;
    write_setup(rt, "longest", &t, &mut [255; 917], &s)
}

// "31 comes first everywhere, 32 last.": into a buffer that is too short as well, and into one that is not.
fn write_unsound(rt: &impl Print, name: &str, t: &Table) -> io::Result<()> {
    write_setup(rt, name, t, &mut [255; 3], &[255; 3])?;
    write_setup(rt, name, t, &mut [255; 51], &[255; 51])
}

// "A table alone is sound if its values are in range and its unused entries zero."
fn unsound_tables(rt: &impl Print) -> io::Result<()> {
    let t = table_of(&worked());
    write_unsound(rt, "0 servers", &Table::zero())?;
    write_unsound(rt, "unused entry not zero", &Table { count: 1, ..t })?;
    write_unsound(rt, "used entry zero", &Table { count: 3, ..t })?;
    write_unsound(rt, "9 servers", &Table { count: 9, ..t })
}

// No server has kind 4.
fn unsound_kind(rt: &impl Print) -> io::Result<()> {
    let mut t = table_of(&worked());
    t.servers[0].kind = 4;
    write_unsound(rt, "server of kind 4", &t)
}

// "The message writer takes any two bytes; a kind not 1 or 2 is 17."
fn written_messages(rt: &impl Print) -> io::Result<()> {
    write_message(rt, 3, &mut [255; 5], &[255; 5])?;
    write_message(rt, 0, &mut [255; 6], &[255; 6])?;
    write_message(rt, 1, &mut [255; 5], &[255; 5])?;
    write_message(rt, 2, &mut [255; 0], &[255; 0])?;
    write_message(rt, 1, &mut [255; 6], b"\x00\x06\x01\x01\x00\x08")?;
    write_message(rt, 2, &mut [255; 7], b"\x00\x06\x01\x02\x00\x08\xff")
}

fn main(rt: HostRuntime) -> io::Result<()> {
    order(&rt)?;
    cut_records(&rt)?;
    counts(&rt)?;
    server_values(&rt)?;
    task_values(&rt)?;
    cuts(&rt)?;
    appended(&rt)?;
    long(&rt)?;
    too_long(&rt)?;
    messages(&rt)?;
    tables(&rt)?;
    polling_table(&rt)?;
    longest_table(&rt)?;
    unsound_tables(&rt)?;
    unsound_kind(&rt)?;
    written_messages(&rt)
}
