//! Lines, both ways, where there is memory.

use super::*;
use std::test::Fail;

#[test]
fn lines_are_rewritten(rt: HostRuntime) -> Result<(), Fail> {
    let rows: [(&[u8], &[u8]); 16] = [
        (b"version", b"version"),
        (b"tick 0x1f", b"tick 31"),
        (b"map v 0x0 0 3 to", b"map v 0 0 3 to"),
        (
            b"map d0 0 0x10 18446744073709551615 both",
            b"map d0 0 16 18446744073709551615 both",
        ),
        (b"peek v 0 0 32768", b"peek v 0 0 32768"),
        (b"buf a-_z9 0aFf", b"buf a-_z9 0aff"),
        (b"load v 0x3fff000 3", b"load v 67104768 3"),
        (
            b"create c 0 2 0x200000000 1 4096 -",
            b"create c 0 2 8589934592 1 4096 -",
        ),
        (b"control 0 -", b"control 0 -"),
        (b"callback v config 1", b"callback v config 1"),
        (b"irqs v 0x0", b"irqs v 0"),
        (b"setstatus v 255", b"setstatus v 255"),
        (b"answer v 0 1 0", b"answer v 0 1 0"),
        (
            b"add v 0 r:0x3fff000:16 w:1:4294967295",
            b"add v 0 r:67104768:16 w:1:4294967295",
        ),
        (b"submit v 0 flush", b"submit v 0 flush"),
        (
            b"submit vda 0 write 8 0 0 4096",
            b"submit vda 0 write 8 0 0 4096",
        ),
    ];
    let mut scratch = Vec::new(rt.alloc());
    for (line, want) in rows {
        let text = spelled(rt.alloc(), &mut scratch, line)?.ok_or("a step")?;
        assert_eq!(rt; text.as_slice(), want);
    }
    Ok(())
}

#[test]
fn bad_lines(rt: HostRuntime) {
    let rows: [&[u8]; 24] = [
        b"mapp",
        b" version",
        b"version ",
        b"version  1",
        b"buf v  00",
        b"tick",
        b"tick 1 2",
        b"tick 00",
        b"tick 0x",
        b"tick 0x00",
        b"tick 0xFF",
        b"tick 18446744073709551616",
        b"tick +1",
        b"peek v 0 0 32769",
        b"peek v 0 0 0",
        b"zeros v 0",
        b"buf v 0",
        b"buf v -",
        b"buf V 00",
        b"kickfd v 0 0x1",
        b"setstatus v 0",
        b"timeout v 4294967296",
        b"add v 0",
        b"add v 0 r:0:4294967296",
    ];
    let mut scratch = Vec::new(rt.alloc());
    for line in rows {
        assert!(rt;
            matches!(
                read_line(rt.alloc(), &mut scratch, line),
                Err(LineError::Bad)
            )
        );
    }
}

#[test]
fn silent_lines(rt: HostRuntime) {
    let mut scratch = Vec::new(rt.alloc());
    for line in [b"".as_slice(), b"# map".as_slice()] {
        assert!(rt; matches!(read_line(rt.alloc(), &mut scratch, line), Ok(None)));
    }
}
