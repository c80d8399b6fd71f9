use crate::running::{Given, over, plain};
use crate::scripts::line;
use serial_link::{Connected, Link, Side};
use std::test::Fail;

#[test]
fn a_file_that_cannot_be_read_ends_the_command(rt: HostRuntime) -> Result<(), Fail> {
    let alloc = rt.alloc();
    let files = [
        ("settings", b"period = 5".as_slice()),
        ("schedule", b"".as_slice()),
    ];
    // The words, and which reading fails.
    let rows: [(&[&str], u64); 8] = [
        (&["pages", "schedule"], 1),
        (&["pages", "settings", "schedule"], 1),
        (&["pages", "settings", "schedule"], 2),
        (&["replay", "settings", "schedule"], 1),
        (&["replay", "settings", "schedule"], 2),
        (&["console", "settings", "schedule", "here", "2"], 1),
        (&["console", "settings", "schedule", "here", "2"], 2),
        (&["import", "schedule", "archive"], 1),
    ];
    for (words, call) in rows {
        let given = Given {
            files: &files,
            failing: &[call],
            ..plain(words)
        };
        let mut ended = over(&rt, alloc, &given, line(alloc, "s")?)?;
        assert_eq!(rt;
            (ended.status, ended.text.as_slice()),
            (8, b"read fault\n".as_slice()),
            "{words:?}, {call}"
        );
        // Nobody was waited for.
        assert_eq!(rt; ended.link.connect(Side::Call, "here"), Connected::Failed);
    }
    Ok(())
}
