//! The lines of a report, one function for each kind of line.
//!
//! Each begins from an empty line, and asks only for what keeps its line within its room.
ghost use Rattle.std.specs.Prelude.{◌≡◌, ◌+◌, ◌≤◌, ◌++◌, [], length};
ghost use Rattle.arrayvec.specs.ArrayString.{array_string_len};
ghost use Rattle.tx_types.specs.Limits.{cell_limit, line_room};
ghost use Rattle.board_report.specs.Printable.{IsNumbers};
ghost use Rattle.board_report.specs.Report.{first_line, events_line, running_line, held_line, ready_line, waits_line, module_line, fault_line, thread_front, thread_numbers, thread_line, regs_line, object_line, device_line, show_line, last_line};

use crate::parts::{
    end_line, put_cells, put_name, put_numbers, put_pair, put_running, put_text, put_words,
};
use board_values::{DeviceRow, FaultRow, ModuleRow, ObjectRow, Report, ShowRow, ThreadRow};
use tx_types::{Line, Totals, put_decimal, put_hex, put_hex_byte, put_long};

/// The first line.
#[tactic(auto, unfolding(crate::specs::Report::first_line))]
pub(crate) fn put_first(line: &mut Line)
    requires { line.old.bytes ≡ [] }
    ensures { line.new.bytes ≡ first_line }
{
    put_text(line, "report");
    end_line(line);
}

/// The last line.
#[tactic(auto, unfolding(crate::specs::Report::last_line))]
pub(crate) fn put_last(line: &mut Line)
    requires { line.old.bytes ≡ [] }
    ensures { line.new.bytes ≡ last_line }
{
    put_text(line, "end");
    end_line(line);
}

/// The line of the events.
#[tactic(auto, unfolding(crate::specs::Report::events_line))]
pub(crate) fn put_events(line: &mut Line, r: &Report)
    requires { line.old.bytes ≡ [] }
    ensures { line.new.bytes ≡ events_line r.now }
{
    put_text(line, "events steps ");
    put_decimal(line, r.steps);
    put_text(line, " irqs ");
    put_decimal(line, r.irqs);
    put_text(line, " ticks ");
    put_decimal(line, r.ticks);
    put_text(line, " clock ");
    put_decimal(line, r.clock);
    end_line(line);
}

/// The line of the running thread.
#[tactic(auto, unfolding(crate::specs::Report::running_line))]
pub(crate) fn put_running_line(line: &mut Line, running: Option<u16>)
    requires { line.old.bytes ≡ [] }
    ensures { line.new.bytes ≡ running_line running }
{
    put_text(line, "running ");
    put_running(line, running);
    end_line(line);
}

/// The line of the holders.
#[tactic(auto, unfolding(crate::specs::Report::held_line))]
pub(crate) fn put_held(line: &mut Line, threads: &[u16])
    requires empty { line.old.bytes ≡ [] }
    requires numbers { IsNumbers threads.now }
    ensures { line.new.bytes ≡ held_line threads.now }
{
    put_text(line, "held");
    put_numbers(line, threads);
    end_line(line);
}

/// The line of the ready threads.
#[tactic(auto, unfolding(crate::specs::Report::ready_line))]
pub(crate) fn put_ready(line: &mut Line, threads: &[u16])
    requires empty { line.old.bytes ≡ [] }
    requires numbers { IsNumbers threads.now }
    ensures { line.new.bytes ≡ ready_line threads.now }
{
    put_text(line, "ready");
    put_numbers(line, threads);
    end_line(line);
}

/// The line of the waits.
#[tactic(auto, unfolding(crate::specs::Report::waits_line))]
pub(crate) fn put_waits(line: &mut Line, t: &Totals)
    requires { line.old.bytes ≡ [] }
    ensures { line.new.bytes ≡ waits_line t.now }
{
    put_text(line, "waits begun ");
    put_long(line, t.begun);
    put_text(line, " satisfied ");
    put_long(line, t.satisfied);
    put_text(line, " timedout ");
    put_long(line, t.timed_out);
    put_text(line, " aborted ");
    put_long(line, t.aborted);
    put_text(line, " deleted ");
    put_long(line, t.deleted);
    put_text(line, " gone ");
    put_long(line, t.gone);
    end_line(line);
}

/// The line of a module.
#[tactic(auto, unfolding(crate::specs::Report::module_line))]
pub(crate) fn put_module(line: &mut Line, m: &ModuleRow)
    requires { line.old.bytes ≡ [] }
    ensures { line.new.bytes ≡ module_line m.now }
{
    put_text(line, "module ");
    put_decimal(line, u32::from(m.module));
    put_text(line, " ");
    put_name(line, &m.name);
    put_text(line, " state ");
    put_decimal(line, m.state);
    put_text(line, " queued ");
    put_decimal(line, m.queued);
    put_text(line, " dropped ");
    put_decimal(line, m.dropped);
    end_line(line);
}

/// The line of a module's fault.
#[tactic(auto, unfolding(crate::specs::Report::fault_line))]
pub(crate) fn put_fault(line: &mut Line, module: u8, f: &FaultRow)
    requires { line.old.bytes ≡ [] }
    ensures { line.new.bytes ≡ fault_line «module» f.now }
{
    put_text(line, "fault ");
    put_decimal(line, u32::from(module));
    put_text(line, " thread ");
    put_decimal(line, u32::from(f.thread));
    put_text(line, " cause ");
    put_decimal(line, f.cause);
    put_text(line, " pc ");
    put_hex(line, f.pc);
    end_line(line);
}

/// The line of a thread's registers.
#[tactic(auto, unfolding(crate::specs::Report::regs_line))]
pub(crate) fn put_regs(line: &mut Line, regs: &[u32])
    requires empty { line.old.bytes ≡ [] }
    requires all { length regs.now ≡ 31 }
    ensures { line.new.bytes ≡ regs_line regs.now }
{
    put_text(line, "regs");
    put_words(line, regs);
    end_line(line);
}

/// The line of a device.
#[tactic(auto, unfolding(crate::specs::Report::device_line))]
pub(crate) fn put_device(line: &mut Line, d: &DeviceRow)
    requires { line.old.bytes ≡ [] }
    ensures { line.new.bytes ≡ device_line d.now }
{
    put_text(line, "device ");
    put_decimal(line, u32::from(d.device));
    put_text(line, " ");
    put_name(line, &d.name);
    put_text(line, " taken ");
    put_decimal(line, d.taken);
    put_text(line, " last ");
    put_hex_byte(line, d.last);
    end_line(line);
}

/// The line of a show.
#[tactic(auto, unfolding(crate::specs::Report::show_line))]
pub(crate) fn put_show(line: &mut Line, s: &ShowRow)
    requires empty { line.old.bytes ≡ [] }
    requires few { length s.now.cells ≤ cell_limit }
    ensures { line.new.bytes ≡ show_line s.now }
{
    put_text(line, "show ");
    put_decimal(line, u32::from(s.show));
    put_cells(line, s.cells.as_slice());
    end_line(line);
}

/// Appends which thread it is, and its state.
#[tactic(auto, unfolding(crate::specs::Report::thread_front))]
fn put_thread_front(line: &mut Line, t: &ThreadRow)
    requires { array_string_len line.old + 100 ≤ line_room }
    ensures bytes { line.new.bytes ≡ line.old.bytes ++ thread_front t.now }
    ensures short { array_string_len line.new ≤ array_string_len line.old + 100 }
{
    put_text(line, "thread ");
    put_decimal(line, u32::from(t.thread));
    put_text(line, " module ");
    put_decimal(line, u32::from(t.module));
    put_text(line, " ");
    put_name(line, &t.name);
    put_text(line, " state ");
    put_decimal(line, t.state);
}

/// Appends a thread's numbers, each as its module set it and as it is in effect.
#[tactic(auto, unfolding(crate::specs::Report::thread_numbers))]
fn put_thread_numbers(line: &mut Line, t: &ThreadRow)
    requires { array_string_len line.old + 100 ≤ line_room }
    ensures bytes { line.new.bytes ≡ line.old.bytes ++ thread_numbers t.now }
    ensures short { array_string_len line.new ≤ array_string_len line.old + 100 }
{
    put_pair(
        line,
        " priority ",
        u32::from(t.priority),
        u32::from(t.effective_priority),
    );
    put_pair(
        line,
        " threshold ",
        u32::from(t.threshold),
        u32::from(t.effective_threshold),
    );
    put_pair(line, " slice ", t.slice, t.remaining);
}

/// The line of a thread.
#[tactic(auto, unfolding(crate::specs::Report::thread_line))]
pub(crate) fn put_thread(line: &mut Line, t: &ThreadRow)
    requires { line.old.bytes ≡ [] }
    ensures { line.new.bytes ≡ thread_line t.now }
{
    put_thread_front(line, t);
    put_thread_numbers(line, t);
    put_text(line, " pc ");
    put_hex(line, t.pc);
    end_line(line);
}

/// The line of an object.
#[tactic(auto, unfolding(crate::specs::Report::object_line))]
pub(crate) fn put_object(line: &mut Line, o: &ObjectRow)
    requires empty { line.old.bytes ≡ [] }
    requires numbers { IsNumbers o.now.waits }
    ensures { line.new.bytes ≡ object_line o.now }
{
    put_text(line, "object ");
    put_decimal(line, u32::from(o.object));
    put_text(line, " module ");
    put_decimal(line, u32::from(o.module));
    put_text(line, " kind ");
    put_decimal(line, o.kind);
    put_text(line, " ");
    put_name(line, &o.name);
    put_pair(line, " ", o.a, o.b);
    put_text(line, " ");
    put_decimal(line, o.c);
    put_text(line, " waits");
    put_numbers(line, o.waits.as_slice());
    end_line(line);
}
