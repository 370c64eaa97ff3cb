//! Whole reports, each line worked by hand.
//!
//! The reports are put together from rows that are written out here: no board is booted, and no
//! event is made.
ghost use Rattle.std.specs.Prelude.{◌≡◌, ◌≤◌, All, IsTrue, length};
ghost use Rattle.tx_types.specs.Limits.{cell_limit, slot_limit};
ghost use Rattle.board_report.specs.Printable.{IsNumbers, IsPrintable};

use board_report::{lines, report_line};
use board_values::{
    DeviceRow, DeviceRows, FaultRow, ModuleRow, ModuleRows, Nums, ObjectRow, ObjectRows, Report,
    Rows, ShowRow, ShowRows, ThreadRow, ThreadRows,
};
use std::alloc::{AllocError, Global};
use std::process::Abort;
use std::test::Fail;
use tx_types::{Line, Name, Totals};

/// No thread is ready.
const IDLE: &str = "report
events steps 20000 irqs 155 ticks 150 clock 150
running -
held
ready
waits begun 23 satisfied 5 timedout 15 aborted 0 deleted 0 gone 0
module 0 sensor state 1 queued 0 dropped 0
thread 0 module 0 start state 5 priority 4 4 threshold 4 4 slice 0 0 pc 800000c4
regs 00000000 800001e0 00000000 00000000 00000000 00000000 00000000 00000000 00000000 00000000 00000000 00000000 00000000 00000000 00000000 00000000 00000000 00000000 00000000 00000000 00000000 00000000 00000000 00000000 00000000 00000000 00000000 00000000 00000000 00000000 ffffffff
object 3 module 0 kind 2 uart 0 16 1 waits 0
device 1 uart taken 3 last 00
show 0 0000001c
end
";

/// A thread runs, others are held, and a module has faulted.
const BUSY: &str = "report
events steps 4294967295 irqs 0 ticks 9 clock 10
running 12
held 3 255
ready 12 3 255
waits begun 18446744073709551615 satisfied 1 timedout 2 aborted 3 deleted 4 gone 5
module 3 - state 3 queued 64 dropped 4294967295
fault 3 thread 7 cause 6 pc 00abcdef
module 15 .z state 0 queued 1 dropped 2
thread 12 module 3 ~..!.. state 13 priority 20 5 threshold 18 4 slice 7 3 pc abcdef00
regs 12345678 12345678 12345678 12345678 12345678 12345678 12345678 12345678 12345678 12345678 12345678 12345678 12345678 12345678 12345678 12345678 12345678 12345678 12345678 12345678 12345678 12345678 12345678 12345678 12345678 12345678 12345678 12345678 12345678 12345678 12345678
object 254 module 15 kind 4 - 2 12 1 waits
object 255 module 0 kind 7 a-name-of-exactly-31-bytes-abcd 1 2 4294967295 waits 0 10 255
device 0 - taken 4294967295 last 1a
device 15 d taken 0 last ff
show 15 -------- 00000000 --------
show 1
end
";

/// A name of the most bytes.
const LONGEST: &[u8] = b"a-name-of-exactly-31-bytes-abcd";

/// A list of these items.
fn rows<T: Copy>(alloc: Global, items: &[T]) -> Result<Rows<T>, AllocError> {
    Ok(Rows::new(Vec::from_slice(alloc, items)?))
}

/// The name of up to 31 bytes, and none of more.
fn name(bytes: &[u8]) -> Name {
    if bytes.len() <= 31 {
        Name::from_bytes(bytes)
    } else {
        Name::empty()
    }
}

fn module(module: u8, bytes: &[u8], counts: [u32; 3], fault: Option<FaultRow>) -> ModuleRow {
    let [state, queued, dropped] = counts;
    ModuleRow {
        module,
        name: name(bytes),
        state,
        queued,
        dropped,
        fault,
    }
}

fn device(device: u8, bytes: &[u8], taken: u32, last: u32) -> DeviceRow {
    DeviceRow {
        device,
        name: name(bytes),
        taken,
        last,
    }
}

fn show(alloc: Global, show: u8, cells: &[Option<u32>]) -> Result<ShowRow, AllocError> {
    Ok(ShowRow {
        show,
        cells: rows(alloc, cells)?,
    })
}

/// A thread that waits for a callback.
fn waiting_thread(alloc: Global) -> Result<ThreadRow, AllocError> {
    let mut regs = [0; 31];
    regs[1] = 0x8000_01E0;
    regs[30] = 0xFFFF_FFFF;
    Ok(ThreadRow {
        thread: 0,
        module: 0,
        name: name(b"start"),
        state: 5,
        priority: 4,
        effective_priority: 4,
        threshold: 4,
        effective_threshold: 4,
        slice: 0,
        remaining: 0,
        pc: 0x8000_00C4,
        regs: rows(alloc, &regs)?,
    })
}

/// A thread whose numbers in effect aren't those that its module set, in the middle of its slice.
fn raised_thread(alloc: Global) -> Result<ThreadRow, AllocError> {
    Ok(ThreadRow {
        thread: 12,
        module: 3,
        name: name(b"\x7e\x7f \x21\x20\xff"),
        state: 13,
        priority: 20,
        effective_priority: 5,
        threshold: 18,
        effective_threshold: 4,
        slice: 7,
        remaining: 3,
        pc: 0xABCD_EF00,
        regs: Rows::new(vec![in alloc; 0x1234_5678; 31]?),
    })
}

/// An object: its number and module, its kind and name, three numbers by its kind, and the threads
/// that wait for it.
type Object<'a> = ((u16, u8), u32, &'a [u8], [u32; 3], &'a [u16]);

/// The row of an object.
fn object(o: &Object<'_>, waits: Nums) -> ObjectRow {
    let ((object, module), kind, bytes, [a, b, c], _) = *o;
    ObjectRow {
        object,
        module,
        kind,
        name: name(bytes),
        a,
        b,
        c,
        waits,
    }
}

/// The rows of objects.
fn object_rows(alloc: Global, objects: &[Object<'_>]) -> Result<ObjectRows, AllocError> {
    let mut list = Vec::new(alloc);
    for o in objects {
        let waits = rows(alloc, o.4)?;
        list.push(object(o, waits))?;
    }
    Ok(Rows::new(list))
}

/// A report with no counts and no rows.
fn blank(alloc: Global) -> Report {
    Report {
        steps: 0,
        irqs: 0,
        ticks: 0,
        clock: 0,
        running: None,
        held: Rows::new(Vec::new(alloc)),
        ready: Rows::new(Vec::new(alloc)),
        totals: Totals::NONE,
        modules: Rows::new(Vec::new(alloc)),
        threads: Rows::new(Vec::new(alloc)),
        objects: Rows::new(Vec::new(alloc)),
        devices: Rows::new(Vec::new(alloc)),
        shows: Rows::new(Vec::new(alloc)),
    }
}

/// The counts of a board where no thread is ready.
fn idle_counts(r: &mut Report) {
    r.steps = 20_000;
    r.irqs = 155;
    r.ticks = 150;
    r.clock = 150;
    r.totals = Totals {
        begun: 23,
        satisfied: 5,
        timed_out: 15,
        aborted: 0,
        deleted: 0,
        gone: 0,
    };
}

/// The rows of a board where no thread is ready.
fn idle_rows(alloc: Global, r: &mut Report) -> Result<(), AllocError> {
    let uart = [((3, 0), 2, b"uart".as_slice(), [0, 16, 1], [0].as_slice())];
    r.modules = Rows::new(vec![in alloc; module(0, b"sensor", [1, 0, 0], None)]?);
    r.threads = Rows::new(vec![in alloc; waiting_thread(alloc)?]?);
    r.objects = object_rows(alloc, &uart)?;
    r.devices = Rows::new(vec![in alloc; device(1, b"uart", 3, 0)]?);
    r.shows = Rows::new(vec![in alloc; show(alloc, 0, &[Some(0x1C)])?]?);
    Ok(())
}

fn idle(alloc: Global) -> Result<Report, AllocError> {
    let mut r = blank(alloc);
    idle_counts(&mut r);
    idle_rows(alloc, &mut r)?;
    Ok(r)
}

/// The counts of a board where a thread runs.
fn busy_counts(r: &mut Report) {
    r.steps = 0xFFFF_FFFF;
    r.irqs = 0;
    r.ticks = 9;
    r.clock = 10;
    r.running = Some(12);
    r.totals = Totals {
        begun: u64::MAX,
        satisfied: 1,
        timed_out: 2,
        aborted: 3,
        deleted: 4,
        gone: 5,
    };
}

/// A module that has faulted, and one that is loaded.
fn busy_modules(alloc: Global) -> Result<ModuleRows, AllocError> {
    let fault = FaultRow {
        thread: 7,
        cause: 6,
        pc: 0x00AB_CDEF,
    };
    let faulted = module(3, b"", [3, 64, 0xFFFF_FFFF], Some(fault));
    let loaded = module(15, b"\x00z", [0, 1, 2], None);
    Ok(Rows::new(vec![in alloc; faulted, loaded]?))
}

const BUSY_OBJECTS: [Object<'static>; 2] = [
    ((254, 15), 4, b"", [2, 12, 1], &[]),
    ((255, 0), 7, LONGEST, [1, 2, 0xFFFF_FFFF], &[0, 10, 255]),
];

fn busy_devices(alloc: Global) -> Result<DeviceRows, AllocError> {
    let unnamed = device(0, b"", 0xFFFF_FFFF, 0x1A);
    let untaken = device(15, b"d", 0, 0xFF);
    Ok(Rows::new(vec![in alloc; unnamed, untaken]?))
}

fn busy_shows(alloc: Global) -> Result<ShowRows, AllocError> {
    let dark = show(alloc, 15, &[None, Some(0), None])?;
    let empty = show(alloc, 1, &[])?;
    Ok(Rows::new(vec![in alloc; dark, empty]?))
}

/// The scheduler, the modules and their threads of a board where a thread runs.
fn busy_threads(alloc: Global, r: &mut Report) -> Result<(), AllocError> {
    r.held = rows(alloc, &[3, 255])?;
    r.ready = rows(alloc, &[12, 3, 255])?;
    r.modules = busy_modules(alloc)?;
    r.threads = Rows::new(vec![in alloc; raised_thread(alloc)?]?);
    Ok(())
}

/// The rows of a board where a thread runs.
fn busy_rows(alloc: Global, r: &mut Report) -> Result<(), AllocError> {
    busy_threads(alloc, r)?;
    r.objects = object_rows(alloc, &BUSY_OBJECTS)?;
    r.devices = busy_devices(alloc)?;
    r.shows = busy_shows(alloc)?;
    Ok(())
}

fn busy(alloc: Global) -> Result<Report, AllocError> {
    let mut r = blank(alloc);
    busy_counts(&mut r);
    busy_rows(alloc, &mut r)?;
    Ok(r)
}

/// Whether there are 256 numbers at most, all below 256.
fn are_numbers(numbers: &Nums) -> bool
    ensures { IsTrue result → IsNumbers numbers.now }
{
    let numbers = numbers.as_slice();
    numbers.len() <= 256 && numbers.iter().all(|n| *n < 256)
}

/// Whether there are 256 threads at most, each with 31 registers.
fn are_threads(threads: &ThreadRows) -> bool
    ensures few { IsTrue result → length threads.now ≤ slot_limit }
    ensures regs { IsTrue result → All (λ t. length t.regs ≡ 31) threads.now }
{
    let threads = threads.as_slice();
    threads.len() <= 256 && threads.iter().all(|t| t.regs.as_slice().len() == 31)
}

/// Whether there are 256 objects at most, for which threads wait as many as a line may name.
fn are_objects(objects: &ObjectRows) -> bool
    ensures few { IsTrue result → length objects.now ≤ slot_limit }
    ensures waits { IsTrue result → All (λ o. IsNumbers o.waits) objects.now }
{
    let objects = objects.as_slice();
    objects.len() <= 256 && objects.iter().all(|o| are_numbers(&o.waits))
}

/// Whether there are 256 shows at most, each of 64 words at most.
fn are_shows(shows: &ShowRows) -> bool
    ensures few { IsTrue result → length shows.now ≤ slot_limit }
    ensures cells { IsTrue result → All (λ s. length s.cells ≤ cell_limit) shows.now }
{
    let shows = shows.as_slice();
    shows.len() <= 256 && shows.iter().all(|s| s.cells.as_slice().len() <= 64)
}

/// Whether each line of a report fits its room.
fn is_printable(r: &Report) -> bool
    ensures { IsTrue result → IsPrintable r.now }
{
    are_numbers(&r.held)
        && are_numbers(&r.ready)
        && r.modules.as_slice().len() <= 256
        && are_threads(&r.threads)
        && are_objects(&r.objects)
        && r.devices.as_slice().len() <= 256
        && are_shows(&r.shows)
}

/// The line of a report at a place; empty where there is none.
fn line_of(r: &Report, i: u32) -> Line
    requires { IsPrintable r.now }
{
    let mut line = Line::new();
    if i < lines(r) {
        report_line(r, i, &mut line);
    }
    line
}

/// The text of a report, its lines one after the other.
fn text_of(alloc: Global, r: &Report) -> Result<String, AllocError>
    requires { IsPrintable r.now }
{
    let mut text = String::new(alloc);
    for i in 0..lines(r) {
        text.push_str(line_of(r, i).as_str())?;
    }
    Ok(text)
}

/// A report has the given number of lines, and this text.
fn prints(rt: &impl Abort, alloc: Global, r: &Report, count: u32, text: &str) -> Result<(), Fail> {
    assert!(rt; is_printable(r));
    assert_eq!(rt; lines(r), count);
    assert_eq!(rt; text_of(alloc, r)?.as_str(), text);
    Ok(())
}

#[test]
fn a_report_where_no_thread_is_ready(rt: HostRuntime) -> Result<(), Fail> {
    let r = idle(rt.alloc())?;
    prints(&rt, rt.alloc(), &r, 13, IDLE)
}

#[test]
fn a_report_with_a_fault_and_dots_and_dashes(rt: HostRuntime) -> Result<(), Fail> {
    let r = busy(rt.alloc())?;
    prints(&rt, rt.alloc(), &r, 18, BUSY)
}

/// One object of each kind.
const KINDS: [Object<'static>; 7] = [
    ((1, 0), 2, b"mail", [2, 14, 4], &[]),
    ((2, 0), 3, b"free", [0, 0, 0], &[7, 8]),
    ((3, 1), 4, b"", [3, 12, 1], &[9]),
    ((4, 1), 5, b"alarm", [0x8000_0001, 0, 0], &[]),
    ((10, 2), 6, b"heap", [48, 2, 0], &[0, 10, 255]),
    ((11, 2), 7, b"blocks", [5, 6, 0], &[]),
    ((255, 15), 8, LONGEST, [1, 0, 0xFFFF_FFFF], &[]),
];

/// Their lines, and the first after them.
const KIND_LINES: [(u32, &str); 8] = [
    (9, "object 1 module 0 kind 2 mail 2 14 4 waits\n"),
    (10, "object 2 module 0 kind 3 free 0 0 0 waits 7 8\n"),
    (11, "object 3 module 1 kind 4 - 3 12 1 waits 9\n"),
    (12, "object 4 module 1 kind 5 alarm 2147483649 0 0 waits\n"),
    (13, "object 10 module 2 kind 6 heap 48 2 0 waits 0 10 255\n"),
    (14, "object 11 module 2 kind 7 blocks 5 6 0 waits\n"),
    (
        15,
        "object 255 module 15 kind 8 a-name-of-exactly-31-bytes-abcd 1 0 4294967295 waits\n",
    ),
    (16, "device 1 uart taken 3 last 00\n"),
];

/// The report of an idle board, but with these objects.
fn idle_with(alloc: Global, objects: &[Object<'_>]) -> Result<Report, AllocError> {
    let objects = object_rows(alloc, objects)?;
    let mut r = idle(alloc)?;
    r.objects = objects;
    Ok(r)
}

/// The lines at these places of a report.
fn has_lines(rt: &impl Abort, r: &Report, texts: &[(u32, &str)]) {
    assert!(rt; is_printable(r));
    for (i, text) in texts {
        assert_eq!(rt; line_of(r, *i).as_str(), *text);
    }
}

#[test]
fn a_line_for_each_kind_of_object(rt: HostRuntime) -> Result<(), Fail> {
    let r = idle_with(rt.alloc(), &KINDS)?;
    has_lines(&rt, &r, &KIND_LINES);
    Ok(())
}

/// A prefix, a piece the given number of times, and a newline.
fn repeated(alloc: Global, front: &str, piece: &str, times: u32) -> Result<String, AllocError> {
    let mut text = String::from_str(alloc, front)?;
    for _ in 0..times {
        text.push_str(piece)?;
    }
    text.push_str("\n")?;
    Ok(text)
}

/// As many numbers as a list may have, each of the most digits.
fn full(alloc: Global) -> Result<Nums, AllocError> {
    Ok(Rows::new(vec![in alloc; 255u16; 256]?))
}

/// Makes the lists of a report as long as they may be.
fn lengthen(alloc: Global, r: &mut Report) -> Result<(), AllocError> {
    r.held = full(alloc)?;
    r.ready = full(alloc)?;
    let most = ((255, 15), 8, LONGEST, [0xFFFF_FFFF; 3], [].as_slice());
    r.objects = Rows::new(vec![in alloc; object(&most, full(alloc)?)]?);
    r.shows = Rows::new(vec![in alloc; show(alloc, 15, &[Some(0x89AB_CDEF); 64])?]?);
    Ok(())
}

fn longest(alloc: Global) -> Result<Report, AllocError> {
    let mut r = idle(alloc)?;
    lengthen(alloc, &mut r)?;
    Ok(r)
}

/// The longest lines: where each stands, its prefix, and the piece that it repeats the given number
/// of times.
const LONGEST_LINES: [(u32, &str, &str, u32); 4] = [
    (3, "held", " 255", 256),
    (4, "ready", " 255", 256),
    (
        9,
        "object 255 module 15 kind 8 a-name-of-exactly-31-bytes-abcd 4294967295 4294967295 4294967295 waits",
        " 255",
        256,
    ),
    (11, "show 15", " 89abcdef", 64),
];

/// A line of a report has this prefix, and a piece the given number of times.
fn repeats(
    rt: &impl Abort,
    alloc: Global,
    r: &Report,
    wanted: (u32, &str, &str, u32),
) -> Result<(), Fail>
    requires { IsPrintable r.now }
{
    let (i, front, piece, times) = wanted;
    let text = repeated(alloc, front, piece, times)?;
    assert_eq!(rt; line_of(r, i).as_str(), text.as_str());
    Ok(())
}

/// Each of the longest lines of a report is as its row says.
fn has_longest_lines(rt: &impl Abort, alloc: Global, r: &Report) -> Result<(), Fail> {
    assert!(rt; is_printable(r));
    for wanted in LONGEST_LINES {
        repeats(rt, alloc, r, wanted)?;
    }
    Ok(())
}

#[test]
fn the_longest_lines(rt: HostRuntime) -> Result<(), Fail> {
    let r = longest(rt.alloc())?;
    has_longest_lines(&rt, rt.alloc(), &r)
}
