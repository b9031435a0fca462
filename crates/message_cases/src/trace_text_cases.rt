//! Lines that no trace of the vectors has, and texts of no line or two. Texts that are nearly lines are in
//! `vectors/worked_checks.jsonl`.

use std::test::Fail;
use trace_text::*;

const LINES: [&str; 18] = [
    "F 1 0 RRRRRRRRRRRRRRRR DDDDDDDDDDDDDDDD S 0 0 0\n",
    "F 64 4294967295 GYCRGYCRGYCRGYCR WFDWFDWFDWFDWFDW K1 929 0 1\n",
    "F 1 960 RGRRRGRRRRRRRRRR DWDDDDDDDDDDDDDD C1 0 0 0\n",
    "F 1 5 RRRRRRRRRRRRRRRR DDDDDDDDDDDDDDDD C0 0 0 0\n",
    "F 1 5 RRRRRRRRRRRRRRRR DDDDDDDDDDDDDDDD E 0 0 0\n",
    "F 1 5 RRRRRRRRRRRRRRRR DDDDDDDDDDDDDDDD X 0 0 0\n",
    "F 1 285 RRRGRRRYRRRRRRRR DDDFDDDDDDDDDDDD P1e 0 0 0\n",
    "F 1 286 RRRGRRRYRRRRRRRR DDDFDDDDDDDDDDDD P255t 0 0 0\n",
    "F 1 421 RGRRRGRRRRRRRRRR DDDDDDDDDDDDDDDD P1d 0 0 0\n",
    "F 1 470 RGRRRGRRRRRRRRRR DDDDDDDDDDDDDDDD P8x 0 0 0\n",
    "S \n",
    "S two  spaces\tand \r\n",
    "M 1 load 1 refused 0 2147483647\n",
    "L 1 4294967295 refused 255 65535\n",
    "J 1 0*4294967295 4*1 0*1\n",
    "A 1 2 00\n",
    "M 1 load 1 refused -5 -2147483648\n",
    "A 1 2 30fe\n",
];

#[test]
fn is_written_as_it_was_read(rt: HostRuntime) -> Result<(), Fail> {
    let alloc = rt.alloc();
    for text in LINES {
        let line = read_line(alloc, text.as_bytes())?.ok_or("no line")?;
        let again = write_line(alloc, &line)?;
        assert!(rt; again.as_slice() == text.as_bytes(), "{text:?}");
    }
    for text in ["", "S two\nlines\n", "Z 1\nZ 1\n"] {
        assert!(rt; read_line(alloc, text.as_bytes())?.is_none());
    }
    Ok(())
}
