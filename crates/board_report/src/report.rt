//! The lines of a report in order: how many there are, and the i-th.
//!
//! Each line is made anew when it is asked for: no text is kept, and the report isn't changed.
ghost use Rattle.std.specs.Prelude.{◌≡◌, ◌<◌, ◌≤◌, [], Some, length};
ghost use Rattle.std.specs.List.{slice_get};
ghost use Rattle.board_report.specs.Printable.{IsPrintable};
ghost use Rattle.board_report.specs.Report.{head_lines, report_lines};

use crate::line_text::{
    put_events, put_first, put_held, put_last, put_ready, put_running_line, put_waits,
};
use crate::row_places::{
    module_count, put_device_line, put_module_line, put_object_line, put_show_line,
    put_thread_line, row_count, thread_count,
};
use board_values::Report;
use tx_types::Line;

/// How many lines stand before the rows.
const HEAD_LINES: u32 = 6;

/// How many lines a report has.
#[tactic(auto, using(crate::proofs::Places::report_length))]
pub fn lines(r: &Report) -> u32
    requires { IsPrintable r.now }
    ensures { result ≡ length (report_lines r.now) }
{
    HEAD_LINES
        + module_count(r.modules.as_slice())
        + thread_count(r.threads.as_slice())
        + row_count(r.objects.as_slice())
        + row_count(r.devices.as_slice())
        + row_count(r.shows.as_slice())
        + 1
}

/// The i-th line of a report, in place of what the line held.
#[tactic(auto, using(crate::proofs::Places::sections, crate::proofs::Places::report_length), unfolding(crate::specs::Report::report_lines))]
pub fn report_line(r: &Report, i: u32, out: &mut Line)
    requires printable { IsPrintable r.now }
    requires there { i < length (report_lines r.now) }
    ensures { slice_get (report_lines r.now) i ≡ Some out.new.bytes }
{
    out.clear();
    if i < HEAD_LINES {
        return put_head_line(out, r, i);
    }
    let i = i - HEAD_LINES;
    let modules = module_count(r.modules.as_slice());
    if i < modules {
        return put_module_line(out, r.modules.as_slice(), i);
    }
    let i = i - modules;
    let threads = thread_count(r.threads.as_slice());
    if i < threads {
        return put_thread_line(out, r.threads.as_slice(), i);
    }
    let i = i - threads;
    let objects = row_count(r.objects.as_slice());
    if i < objects {
        return put_object_line(out, r.objects.as_slice(), i);
    }
    let i = i - objects;
    let devices = row_count(r.devices.as_slice());
    if i < devices {
        return put_device_line(out, r.devices.as_slice(), i);
    }
    let i = i - devices;
    if i < row_count(r.shows.as_slice()) {
        return put_show_line(out, r.shows.as_slice(), i);
    }
    put_last(out);
}

/// The i-th of the lines before the rows.
fn put_head_line(line: &mut Line, r: &Report, i: u32)
    requires printable { IsPrintable r.now }
    requires empty { line.old.bytes ≡ [] }
    requires there { i < HEAD_LINES }
    ensures { slice_get (head_lines r.now) i ≡ Some line.new.bytes }
{
    match i {
        0 => put_first(line),
        1 => put_events(line, r),
        2 => put_running_line(line, r.running),
        3 => put_held(line, r.held.as_slice()),
        4 => put_ready(line, r.ready.as_slice()),
        _ => put_waits(line, &r.totals),
    }
}
