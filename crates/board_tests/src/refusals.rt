//! The line of each refusal, where no file of `tests/cli.sh` brings it about.
//!
//! A refusal is asked for its line directly: no file is read, and no command is run.
use board_file::Path;
use board_run::Refusal;
use module_preamble::PreErr;
use std::alloc::Global;
use std::process::Abort;
use std::test::Fail;

const NUMBERS: [(Refusal, &str); 9] = [
    (Refusal::NotToml, "refused board: not toml\n"),
    (Refusal::LogLine(131_074), "refused log: line 131074\n"),
    (Refusal::Room(0), "refused room 0\n"),
    (Refusal::Room(15), "refused room 15\n"),
    (Refusal::ImageTooLarge(15), "refused image 15 too large\n"),
    (
        Refusal::Image(2, PreErr::BadId(0x4D4F_4456)),
        "refused image 2: BadId 4d4f4456\n",
    ),
    (
        Refusal::Image(0, PreErr::BadSize(33)),
        "refused image 0: BadSize 00000021\n",
    ),
    (
        Refusal::Image(0, PreErr::BadPrio(0, 40)),
        "refused image 0: BadPrio 0 00000028\n",
    ),
    (
        Refusal::Image(15, PreErr::BadStack(1, u32::MAX)),
        "refused image 15: BadStack 1 ffffffff\n",
    ),
];

/// A path, of which other bytes than graphic ones are printed as dots.
const PATHS: [(&str, &str); 5] = [
    ("ram", "refused board: ram\n"),
    ("", "refused board: \n"),
    ("module[1].!~", "refused board: module[1].!~\n"),
    ("a b\t\u{7f}\n", "refused board: a.b...\n"),
    ("é", "refused board: ..\n"),
];

/// A refusal has this line.
fn prints(rt: &impl Abort, alloc: Global, refusal: &Refusal, line: &str) -> Result<(), Fail> {
    let printed = refusal.line(alloc).map_err(|_| "no memory")?;
    assert_eq!(rt; printed.as_str(), line);
    Ok(())
}

#[test]
fn refusals_have_their_lines(rt: HostRuntime) -> Result<(), Fail> {
    for (refusal, line) in &NUMBERS {
        prints(&rt, rt.alloc(), refusal, line)?;
    }
    for (path, line) in PATHS {
        let refusal = Refusal::Field(Path::new(String::from_str(rt.alloc(), path)?));
        prints(&rt, rt.alloc(), &refusal, line)?;
    }
    Ok(())
}
