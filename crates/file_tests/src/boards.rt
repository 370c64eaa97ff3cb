//! Boards and the first wrong field of each, by hand from the description of the format.
//!
//! Each row of a table is a piece of a file, and what reading the whole file then answers. The
//! files are put together in memory; none is opened.

use board_file::{Action, Board, BoardDevice, BoardErr, BoardModule, Path, PathText, read_board};
use std::alloc::{AllocError, Global};
use std::process::Abort;
use std::test::Fail;

const TOP: &str = "ram = 4096\nsteps = 0\n";

const MODULE: &str = "[[module]]\nname = \"one\"\nimage = \"p1\"\n";

const OTHER: &str = "[[module]]\nname = \"two\"\nimage = \"p2\"\n";

const DEVICE: &str = "[[device]]\nname = \"d0\"\naction = \"resume\"\ntarget = \"none\"\n";

/// The first fields of a file, before a module.
const NUMBERS: [(&str, &str); 19] = [
    ("ram = 4096\nsteps = 0\n", "ok"),
    ("steps = 0\n", "ram"),
    ("ram = 100\n", "ram"),
    ("ram = 4064\nsteps = 0\n", "ram"),
    ("ram = 4112\nsteps = 0\n", "ram"),
    ("ram = 16777216\nsteps = 0\n", "ok"),
    ("ram = 16777248\nsteps = 0\n", "ram"),
    ("ram = 4294971392\nsteps = 0\n", "ram"),
    ("ram = -4096\nsteps = 0\n", "ram"),
    ("ram = 4096.0\nsteps = 0\n", "ram"),
    ("ram = \"4096\"\nsteps = 0\n", "ram"),
    ("ram = 4096\n", "steps"),
    ("ram = 4096\nsteps = -1\n", "steps"),
    ("ram = 4096\nsteps = true\n", "steps"),
    ("ram = 4096\nsteps = 100000000\n", "ok"),
    ("ram = 4096\nsteps = 100000001\n", "steps"),
    ("ram = 4096\nram = 4096\n", "not toml"),
    ("ram", "not toml"),
    ("ram = 99999999999999999999\n", "not toml"),
];

/// What follows the first two fields of a file with no module.
const LISTS: [(&str, &str); 9] = [
    ("", "module"),
    ("module = 1\n", "module"),
    ("module = []\n", "module"),
    ("[module]\nname = \"one\"\n", "module"),
    ("module = [1]\n", "module[0]"),
    (
        "module = [{name = \"a\", image = \"p\"}, []]\n",
        "module[1]",
    ),
    ("module = [{image = \"p\"}, 1]\n", "module[0].name"),
    ("module = [1,1,1,1,1,1,1,1,1,1,1,1,1,1,1,1,1]\n", "module"),
    ("module = [1,1,1,1,1,1,1,1,1,1,1,1,1,1,1,1]\n", "module[0]"),
];

/// Further fields of a file, before its module.
const OTHERS: [(&str, &str); 17] = [
    ("device = 1\n", "device"),
    ("device = []\nshow = []\n", "ok"),
    ("device = [1]\n", "device[0]"),
    ("show = 1\n", "show"),
    ("show = [1]\n", "show[0]"),
    ("device = [1,1,1,1,1,1,1,1,1,1,1,1,1,1,1,1,1]\n", "device"),
    ("show = [1,1,1,1,1,1,1,1,1,1,1,1,1,1,1,1,1]\n", "show"),
    ("share = []\n", "share"),
    ("share = 1\ndevice = 1\naaa = 1\n", "share"),
    ("device = 1\nshow = 1\n", "device"),
    ("zed = 1\n", "zed"),
    ("priorities = 32\nwatch = 1\n", "priorities"),
    ("b = 1\nB = 1\n", "B"),
    ("a.b = 1\n", "a"),
    ("\"\" = 1\n", ""),
    ("\"\\u0041 b\" = 1\n", "A b"),
    ("aaa = 1\nshow = 1\n", "show"),
];

/// Fields of a second module, which another follows.
const MODULES: [(&str, &str); 27] = [
    ("name = \"a\"\nimage = \"p\"\n", "ok"),
    ("image = \"p\"\n", "module[1].name"),
    ("name = 1\nimage = \"p\"\n", "module[1].name"),
    ("name = \"\"\nimage = \"p\"\n", "module[1].name"),
    ("name = \"a b\"\nimage = \"p\"\n", "module[1].name"),
    ("name = \"a.b\"\nimage = \"p\"\n", "module[1].name"),
    ("name = \"é\"\nimage = \"p\"\n", "module[1].name"),
    ("name = \"-_azAZ09\"\nimage = \"p\"\n", "ok"),
    ("name = \"one\"\nimage = \"p\"\n", "module[1].name"),
    ("name = \"One\"\nimage = \"p\"\n", "ok"),
    (
        "name = \"0123456789012345678901234567890\"\nimage = \"p\"\n",
        "ok",
    ),
    (
        "name = \"01234567890123456789012345678901\"\nimage = \"p\"\n",
        "module[1].name",
    ),
    ("name = \"a\"\n", "module[1].image"),
    ("name = \"a\"\nimage = 1\n", "module[1].image"),
    ("name = \"a\"\nimage = \"\"\n", "module[1].image"),
    ("name = \"a\"\nimage = \" é\"\n", "ok"),
    ("name = \"a\"\nimage = \"p\"\nstart = true\n", "ok"),
    (
        "name = \"a\"\nimage = \"p\"\nstart = 1\n",
        "module[1].start",
    ),
    ("name = \"a\"\nimage = \"p\"\nsize = 1\n", "module[1].size"),
    (
        "name = \"a\"\nimage = \"p\"\nzeta = 1\nAlpha = 1\n",
        "module[1].Alpha",
    ),
    (
        "name = \"a\"\nimage = \"p\"\nsub.deep = 1\n",
        "module[1].sub",
    ),
    (
        "name = \"a\"\nimage = \"p\"\n[module.sub]\ndeep = 1\n",
        "module[1].sub",
    ),
    (
        "name = \"a\"\nimage = \"p\"\nstart = 1\nA = 1\n",
        "module[1].start",
    ),
    ("A = 1\nstart = 1\n", "module[1].name"),
    (
        "name = \"a\"\nimage = \"p\"\nx = 1\n[[module]]\n",
        "module[1].x",
    ),
    (
        "name = \"a\"\nimage = \"p\"\nstart = 1\n[[module]]\n",
        "module[1].start",
    ),
    (
        "name = \"a\"\nimage = \"p\"\n[[module]]\n",
        "module[2].name",
    ),
];

/// Fields of a second device.
const DEVICES: [(&str, &str); 19] = [
    (
        "name = \"d\"\naction = \"resume\"\ntarget = \"none\"\nscript = []\n",
        "ok",
    ),
    (
        "name = \"one\"\naction = \"resume\"\ntarget = \"one\"\nscript = []\n",
        "ok",
    ),
    (
        "action = \"resume\"\ntarget = \"none\"\nscript = []\n",
        "device[1].name",
    ),
    (
        "name = \"d0\"\naction = \"resume\"\ntarget = \"none\"\nscript = []\n",
        "device[1].name",
    ),
    (
        "name = \"d\"\ntarget = \"none\"\nscript = []\n",
        "device[1].action",
    ),
    (
        "name = \"d\"\naction = 1\ntarget = \"none\"\nscript = []\n",
        "device[1].action",
    ),
    ("name = \"d\"\naction = \"tick\"\nscript = []\n", "ok"),
    (
        "name = \"d\"\naction = \"tick\"\ntarget = \"one\"\nscript = []\n",
        "device[1].target",
    ),
    (
        "name = \"d\"\naction = \"tick\"\ntarget = 1\nscript = 1\n",
        "device[1].target",
    ),
    (
        "name = \"d\"\naction = \"semaphore\"\ntarget = \"one\"\nscript = []\n",
        "device[1].action",
    ),
    (
        "name = \"d\"\naction = \"events\"\ntarget = \"one\"\nscript = []\n",
        "device[1].action",
    ),
    (
        "name = \"d\"\naction = \"queue\"\ntarget = \"one\"\nscript = []\n",
        "device[1].action",
    ),
    (
        "name = \"d\"\naction = \"start\"\ntarget = \"one\"\nscript = []\n",
        "device[1].action",
    ),
    (
        "name = \"d\"\naction = \"stop\"\ntarget = \"one\"\nscript = []\n",
        "device[1].action",
    ),
    (
        "name = \"d\"\naction = \"Resume\"\ntarget = \"one\"\nscript = []\n",
        "device[1].action",
    ),
    (
        "name = \"d\"\naction = \"resume\"\nscript = []\n",
        "device[1].target",
    ),
    (
        "name = \"d\"\naction = \"resume\"\ntarget = \"\"\nscript = []\n",
        "device[1].target",
    ),
    (
        "name = \"d\"\naction = \"resume\"\ntarget = \"a\"\n",
        "device[1].script",
    ),
    (
        "name = \"d\"\naction = \"resume\"\ntarget = \"a\"\nscript = []\nx = 1\n",
        "device[1].x",
    ),
];

/// The script of a first device, which may be followed by a second device.
const SCRIPTS: [(&str, &str); 18] = [
    ("script = [0, 4294967295]\n", "ok"),
    ("script = 1\n", "device[0].script"),
    ("script = [\"a\"]\n", "device[0].script"),
    ("script = [1, -1]\n", "device[0].script"),
    ("script = [1, 4294967296]\n", "device[0].script"),
    ("script = [1.0]\n", "device[0].script"),
    ("script = []\nrepeat = 0\n", "device[0].repeat"),
    ("script = []\nrepeat = 65537\n", "device[0].repeat"),
    ("script = []\nrepeat = true\n", "device[0].repeat"),
    ("script = 1\nrepeat = 0\n", "device[0].script"),
    ("script = [1, 2]\nrepeat = 32769\n", "device[0].script"),
    ("script = [1, 2]\nrepeat = 65537\n", "device[0].repeat"),
    (
        "script = []\nrepeat = 65536\n[[device]]\nname = \"d1\"\naction = \"resume\"\ntarget = \"none\"\nscript = [1]\nrepeat = 65536\n",
        "ok",
    ),
    (
        "script = [1, 2]\nrepeat = 32768\n[[device]]\nname = \"d1\"\naction = \"resume\"\ntarget = \"none\"\nscript = []\n",
        "ok",
    ),
    (
        "script = [1, 2]\nrepeat = 32768\n[[device]]\nname = \"d1\"\naction = \"resume\"\ntarget = \"none\"\nscript = [1]\n",
        "device[1].script",
    ),
    (
        "script = [1, 2]\nrepeat = 32767\n[[device]]\nname = \"d1\"\naction = \"resume\"\ntarget = \"none\"\nscript = [1, 2]\n",
        "ok",
    ),
    (
        "script = [1, 2]\nrepeat = 32767\n[[device]]\nname = \"d1\"\naction = \"resume\"\ntarget = \"none\"\nscript = [1, 2, 3]\n",
        "device[1].script",
    ),
    (
        "script = [1, 2]\nrepeat = 32768\n[[device]]\nname = \"d1\"\naction = \"resume\"\ntarget = \"none\"\nscript = [1]\nx = 1\n",
        "device[1].script",
    ),
];

/// Fields of a show after its module, where modules `one` and `two` are there.
const SHOWS: [(&str, &str); 15] = [
    ("offset = 0\nwords = 1\n", "ok"),
    ("words = 1\n", "show[0].offset"),
    ("offset = 2\nwords = 1\n", "show[0].offset"),
    ("offset = -4\nwords = 1\n", "show[0].offset"),
    ("offset = 16777212\nwords = 64\n", "ok"),
    ("offset = 16777216\nwords = 1\n", "show[0].offset"),
    ("offset = 0\n", "show[0].words"),
    ("offset = 0\nwords = 0\n", "show[0].words"),
    ("offset = 0\nwords = 65\n", "show[0].words"),
    ("offset = 0\nwords = \"1\"\n", "show[0].words"),
    ("offset = 0\nwords = 1\nx = 1\n", "show[0].x"),
    ("offset = 0\nwords = 1\n[[show]]\n", "show[1].module"),
    (
        "offset = 0\nwords = 1\n[[show]]\nmodule = \"three\"\n",
        "show[1].module",
    ),
    (
        "offset = 0\nwords = 1\n[[show]]\nmodule = 0\n",
        "show[1].module",
    ),
    (
        "offset = 0\nwords = 1\n[[show]]\nmodule = \"two\"\noffset = 4\nwords = 2\n",
        "ok",
    ),
];

/// Texts one after another.
fn joined(alloc: Global, parts: &[&str]) -> Result<String, AllocError> {
    let mut text = String::new(alloc);
    for part in parts {
        text.push_str(part)?;
    }
    Ok(text)
}

/// What reading answers, as a text.
fn answer(read: &Result<Board, BoardErr>) -> &str {
    match read {
        Ok(_) => "ok",
        Err(BoardErr::NotToml) => "not toml",
        Err(BoardErr::NoMemory) => "no memory",
        Err(BoardErr::Field(path)) => path.as_str(),
    }
}

/// The texts before a row, the rows, and the text after a row.
enum Table {
    Of(&'static [&'static str], &'static [(&'static str, &'static str)], &'static str),
}

const TABLES: [Table; 7] = [
    Table::Of(&[], &NUMBERS, MODULE),
    Table::Of(&[TOP], &LISTS, ""),
    Table::Of(&[TOP], &OTHERS, MODULE),
    Table::Of(&[TOP, MODULE, "[[module]]\n"], &MODULES, OTHER),
    Table::Of(
        &[TOP, MODULE, DEVICE, "script = []\n[[device]]\n"],
        &DEVICES,
        "",
    ),
    Table::Of(&[TOP, MODULE, DEVICE], &SCRIPTS, ""),
    Table::Of(
        &[TOP, MODULE, OTHER, "[[show]]\nmodule = \"one\"\n"],
        &SHOWS,
        "",
    ),
];

/// Each row's text between two others is answered as the row says.
fn answers(
    rt: &impl Abort,
    alloc: Global,
    before: &str,
    rows: &[(&str, &str)],
    after: &str,
) -> Result<(), Fail> {
    for (row, want) in rows {
        let text = joined(alloc, &[before, row, after])?;
        let read = read_board(alloc, text.as_bytes());
        assert_eq!(rt; answer(&read), *want, "{text}");
    }
    Ok(())
}

/// So is each row of a table.
fn answers_all(rt: &impl Abort, alloc: Global, table: &Table) -> Result<(), Fail> {
    let Table::Of(parts, rows, after) = *table;
    let before = joined(alloc, parts)?;
    answers(rt, alloc, before.as_str(), rows, after)
}

#[test]
fn the_first_wrong_field_is_named(rt: HostRuntime) -> Result<(), Fail> {
    for table in &TABLES {
        answers_all(&rt, rt.alloc(), table)?;
    }
    Ok(())
}

#[test]
fn bytes_that_are_no_text(rt: HostRuntime) {
    let read = read_board(rt.alloc(), &[0x61, 0xFF]);
    assert!(rt; answer(&read) == "not toml");
}

#[test]
fn paths_give_their_text_back(rt: HostRuntime) -> Result<(), Fail> {
    let image = PathText::new(String::from_str(rt.alloc(), "a b.img")?).into_string();
    let field = Path::new(String::from_str(rt.alloc(), "module[0].é")?).into_string();
    assert!(rt; image.as_str() == "a b.img" && field.as_str() == "module[0].é");
    Ok(())
}

/// A file of the given number of modules, with images whose names have the given number of bytes.
fn many(alloc: Global, modules: u32, image: u32) -> Result<String, AllocError> {
    let mut text = String::from_str(alloc, TOP)?;
    for i in 0..modules {
        let module = format!(in alloc; "[[module]]\nname = \"m{i}\"\nimage = \"")?;
        text.push_str(module.as_str())?;
        for _ in 0..image {
            text.push_str("/")?;
        }
        text.push_str("\"\n")?;
    }
    Ok(text)
}

#[test]
fn most_modules_and_the_longest_image(rt: HostRuntime) -> Result<(), Fail> {
    for (modules, image, want) in [
        (16, 255, "ok"),
        (17, 255, "module"),
        (1, 256, "module[0].image"),
    ] {
        let text = many(rt.alloc(), modules, image)?;
        let read = read_board(rt.alloc(), text.as_bytes());
        assert_eq!(rt; answer(&read), want, "{modules} modules");
    }
    Ok(())
}

const WHOLE: &str =
    "steps = 20\nram = 1048576\n[[show]]\nwords = 3\noffset = 8\nmodule = \"two\"\n";

#[test]
fn a_board_is_what_its_file_says(rt: HostRuntime) -> Result<(), Fail> {
    let script = "script = [7, 4294967295]\nrepeat = 3\n";
    let text = joined(
        rt.alloc(),
        &[WHOLE, MODULE, OTHER, "start = true\n", DEVICE, script],
    )?;
    let board = read_board(rt.alloc(), text.as_bytes())?;
    assert!(rt; is_whole(&board) && board.modules.into_vec().len() == 2);
    Ok(())
}

/// The numbers and the lists of the board.
fn is_whole(b: &Board) -> bool {
    let modules = match b.modules.items() {
        [one, two] => is_module(one, b"one", "p1", false) && is_module(two, b"two", "p2", true),
        _ => false,
    };
    let devices = match b.devices.items() {
        [device] => is_device(device),
        _ => false,
    };
    let shows = match b.shows.items() {
        [s] => s.module.number() == 1 && s.offset == 8 && s.words == 3,
        _ => false,
    };
    let numbers = b.ram == 1_048_576 && b.steps == 20 && b.shares.items().is_empty();
    numbers && modules && devices && shows
}

fn is_module(m: &BoardModule, name: &[u8], image: &str, start: bool) -> bool {
    m.name.bytes() == name && m.image.as_str() == image && m.start == start
}

fn is_device(d: &BoardDevice) -> bool {
    let most = u32::MAX;
    d.name.bytes() == b"d0".as_slice()
        && d.action == Action::Resume
        && d.target.bytes() == b"none".as_slice()
        && d.script.items() == [7, most, 7, most, 7, most].as_slice()
}
