// What the cases lend when it is more than a program lends.
ghost use Rattle.std.specs.Prelude.{◌+◌, ◌≡◌, IfOk, string_len};

use super::*;
use std::alloc::{Allocator, Global};
use std::fmt::Display;
use std::io::{BufRead, Lines};
use std::test::Fail;

// A runtime that reads one text and writes nothing.
#[derive(Drop)]
struct Text<'a> {
    rt: &'a HostRuntime,
    text: &'a [u8],
}

impl<'a> Input for Text<'a> {
    type Reader = &'a [u8];

    fn read_line<A: Allocator + Clone>(&self, buf: &mut String<A>) -> io::Result<usize>
        ensures ok { IfOk result (λ n. string_len buf.new ≡ string_len buf.old + n) }
    {
        self.reader().read_line(buf)
    }

    fn lines<A: Allocator>(&self, alloc: A) -> Lines<&'a [u8], A> {
        self.reader().lines(alloc)
    }

    fn reader(&self) -> &'a [u8] {
        self.text
    }
}

impl Print for Text<'_> {
    fn print<D: Display + Drop>(&self, _value: D) -> io::Result<()> {
        Ok(())
    }

    fn println<D: Display + Drop>(&self, _value: D) -> io::Result<()> {
        Ok(())
    }

    fn write_all(&self, _bytes: &[u8]) -> io::Result<()> {
        Ok(())
    }
}

impl Alloc for Text<'_> {
    type A = Global;

    fn alloc(&self) -> Global {
        self.rt.alloc()
    }
}

#[test]
fn lends_more_than_a_program(rt: HostRuntime) -> Result<(), Fail> {
    let rewritten = Text {
        rt: &rt,
        text: b"12289 0 2 0 1:0 40:0 => 1:0 40:0 # one word more than a program lends\n",
    };
    let reported = Text {
        rt: &rt,
        text: b"12289 0 0 0 1:0 40:0 => # one word more than a program lends\n",
    };
    let tally = run_rewriter(&rewritten)?;
    assert_eq!(rt; (tally.cases, tally.wrong), (1, 1));
    let tally = run_report(&reported)?;
    assert_eq!(rt; (tally.cases, tally.wrong), (1, 1));
    let mut output = [0; 12289];
    let buffers = Buffers {
        module: &mut [0; 2],
        expected: &mut [0; 2],
        output: &mut output,
    };
    let tally = buffers.run_rewriter(&rewritten)?;
    assert_eq!(rt; (tally.cases, tally.wrong), (1, 0));
    let buffers = Buffers {
        module: &mut [0; 2],
        expected: &mut [0; 2],
        output: &mut output,
    };
    let tally = buffers.run_report(&reported)?;
    assert_eq!(rt; (tally.cases, tally.wrong), (1, 0));
    Ok(())
}
