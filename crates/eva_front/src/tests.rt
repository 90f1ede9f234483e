ghost use Rattle.std.specs.Prelude.{List, ℕ, None, IsSome};

use crate::{Failed, FileMap, Page, Sink, Source, SureFiles, SurePage, run_eva};
use std::alloc::{AllocError, Global};
use std::test::Fail;

/// One file, of which a call gives at most seven bytes.
#[derive(Drop)]
struct Trickle<'a> {
    bytes: &'a [u8],
    left: Option<&'a [u8]>,
}

impl<'a> Source for Trickle<'a> {
    ghost content = { λ s name. None };

    ghost left = { λ s. None };

    ghost faults = { λ s. 0 };

    ghost open_to = { λ s name. Unit {0} };

    ghost is_open = { λ s. IsSome s.left };

    fn open(&mut self, _name: &str) -> Result<(), Failed> {
        self.left = Some(self.bytes);
        Ok(())
    }

    fn read(&mut self, to: &mut [u8]) -> Result<usize, Failed> {
        let Some(left) = self.left else {
            return Ok(0);
        };
        let count = left.len().min(to.len()).min(7);
        let (front, rest) = left.split_at(count);
        to[..count].copy_from_slice(front);
        self.left = Some(rest);
        Ok(count)
    }
}

fn words_of(alloc: Global, words: &[&str]) -> Result<Vec<String>, AllocError> {
    let mut all = Vec::new(alloc);
    for word in words {
        all.push(String::from_str(alloc, *word)?)?;
    }
    Ok(all)
}

/// The status and the page of a run on one file, where the source's and the sink's calls of these numbers fail.
fn run<'a>(
    alloc: Global,
    words: &[&str],
    file: &[u8],
    failing: (&[u64], &'a [u64]),
) -> Result<(u8, Page<'a>), AllocError> {
    let words = words_of(alloc, words)?;
    let files = [("a.c", file)];
    let mut source = FileMap::new(&files, failing.0);
    let mut page = Page::new(alloc, 10, failing.1);
    let status = run_eva(alloc, words.as_slice(), &mut source, &mut page);
    Ok((status, page))
}

const USAGE: &str = "usage: eva [--workers N] [--cache N] [--rows N] [--steps N] FILE ENTRY...\n";

#[test]
fn answers_with_status_and_text(rt: HostRuntime) -> Result<(), Fail> {
    let two = "int f(void){return 3;} int g(void){return 6/4*2;}";
    let second =
        "entry g: complete, 2 turns\nend of g:\n  \\result = {2}\nentries 1, complete 1, alarms 0, turns 2\n";
    let divided =
        "entry main: complete, 1 turns\nalarm a.c:1 division_by_zero in main 0.2\nend of main: none\nentries 1, complete 1, alarms 1, turns 1\n";
    let negated =
        "entry main: complete, 1 turns\nalarm a.c:1 signed_overflow in main 0.1\nend of main: none\nentries 1, complete 1, alarms 1, turns 1\n";
    let overflown =
        "entry f: complete, 1 turns\nalarm h.h:9 signed_overflow in f 0.1\nend of f: none\nentries 1, complete 1, alarms 1, turns 1\n";
    let one =
        "entry f: complete, 2 turns\nend of f:\n  \\result = {1}\nentries 1, complete 1, alarms 0, turns 2\n";
    let cases: [(&[&str], &str, u8, &str); 18] = [
        (&["a.c", "g"], two, 0, second),
        (&["a.c", "h"], two, 8, "unknown entry: h\n"),
        (&["a.c", "main"], "", 8, "unknown entry: main\n"),
        (
            &["a.c", "main"],
            "int main(void){return 1/0 + 2/0;}",
            1,
            divided,
        ),
        (
            &["a.c", "main"],
            "int main(void){return -(-2147483647 - 1);}",
            1,
            negated,
        ),
        (
            &["a.c", "f"],
            "# 7 \"h.h\"\nint f(void)\n{\n  return 2147483647 + 1;\n}\n",
            1,
            overflown,
        ),
        (&["a.c", "f"], "int f(){return 1;}", 0, one),
        (
            &["a.c", "f"],
            "int f(int a){return a;}",
            3,
            "refused: form 1\n",
        ),
        (
            &["a.c", "f"],
            "int f(void){return 1;} int f(void){return 2;}",
            3,
            "refused: form 1\n",
        ),
        (&["a.c", "f"], "int f\0", 3, "refused: lex 1 at a.c:1\n"),
        (
            &["a.c", "f"],
            "int f(void)\n{ return 1 }",
            3,
            "refused: syntax 1 at a.c:2\n",
        ),
        (&["b.c", "f"], two, 5, "read fault\n"),
        (&["-a.c", "f"], two, 2, USAGE),
        (&["a.c", ""], two, 2, USAGE),
        (&["gen:7", "e0"], two, 2, USAGE),
        (&["a.c"], two, 2, USAGE),
        (&["a.c", "f", "g"], two, 2, USAGE),
        (&[], two, 2, USAGE),
    ];
    for (words, file, status, text) in cases {
        let (got, page) = run(rt.alloc(), words, file.as_bytes(), (&[], &[]))?;
        assert_eq!(rt; got, status, "at {file}");
        assert!(rt; page.written() == text.as_bytes(), "at {file}");
    }
    Ok(())
}

#[test]
fn a_file_may_have_so_many_bytes(rt: HostRuntime) -> Result<(), Fail> {
    let alloc = rt.alloc();
    let words = ["a.c", "main"];
    let mut blanks = vec![in alloc; b' '; 1_048_576]?;
    let (got, page) = run(alloc, &words, blanks.as_slice(), (&[], &[]))?;
    assert_eq!(rt; got, 8);
    assert!(rt; page.written() == b"unknown entry: main\n".as_slice());
    blanks.push(b' ')?;
    let (got, page) = run(alloc, &words, blanks.as_slice(), (&[], &[]))?;
    assert_eq!(rt; got, 3);
    assert!(rt; page.written() == b"refused: source 1\n".as_slice());
    Ok(())
}

#[test]
fn a_read_fault_is_answered(rt: HostRuntime) -> Result<(), Fail> {
    let alloc = rt.alloc();
    let mut file = vec![in alloc; b' '; 9000]?;
    file.extend_from_slice(b"int main(void){return 7/0;}")?;
    let words = ["a.c", "main"];
    for call in 1..=5u64 {
        let (got, page) = run(alloc, &words, file.as_slice(), (&[call], &[]))?;
        assert_eq!(rt; got, 5, "at call {call}");
        assert!(rt;
            page.written() == b"read fault\n".as_slice(),
            "at call {call}"
        );
    }
    let (got, _page) = run(alloc, &words, file.as_slice(), (&[6], &[]))?;
    assert_eq!(rt; got, 1);
    let (got, page) = run(alloc, &["g.c", "main"], file.as_slice(), (&[], &[]))?;
    assert_eq!(rt; got, 5);
    assert!(rt; page.written() == b"read fault\n".as_slice());
    Ok(())
}

#[test]
fn a_write_fault_is_answered(rt: HostRuntime) -> Result<(), Fail> {
    let alloc = rt.alloc();
    let file = b"int main(void){return 7/0;}";
    let words = ["a.c", "main"];
    let (got, page) = run(alloc, &words, file, (&[], &[2]))?;
    assert_eq!(rt; got, 6);
    assert!(rt; page.written() == b"entry main".as_slice());
    for call in 1..=13u64 {
        let failing = [call, 20];
        let (got, page) = run(alloc, &words, file, (&[], &failing))?;
        assert_eq!(rt; got, 6, "at call {call}");
        assert_eq!(rt;
            page.written().len(),
            10 * (call as usize - 1),
            "at call {call}"
        );
    }
    let (got, page) = run(alloc, &words, file, (&[], &[14]))?;
    assert_eq!(rt; got, 1);
    assert_eq!(rt; page.written().len(), 130);
    Ok(())
}

#[test]
fn a_short_read_is_no_end(rt: HostRuntime) -> Result<(), Fail> {
    let alloc = rt.alloc();
    let words = words_of(alloc, &["a.c", "f"])?;
    let mut source = Trickle {
        bytes: b"int f(void){return 6/4;}",
        left: None,
    };
    let mut page = Page::new(alloc, 4096, &[]);
    let status = run_eva(alloc, words.as_slice(), &mut source, &mut page);
    assert_eq!(rt; status, 0);
    assert!(rt; page.written().starts_with(b"entry f: complete, 2 turns\n"));
    Ok(())
}

#[test]
fn calls_fail_by_number(rt: HostRuntime) -> Result<(), Fail> {
    let mut files = FileMap::new(&[("a.c", b"int"), ("a.c", b"void")], &[1, 4]);
    let mut to = [0u8; 2];
    assert_eq!(rt; files.open("a.c"), Err(Failed));
    assert_eq!(rt; files.open("b.c"), Err(Failed));
    if files.open("a.c").is_ok() {
        assert_eq!(rt; files.read(&mut to), Err(Failed));
    }
    let mut page = Page::new(rt.alloc(), 0, &[]);
    assert_eq!(rt; page.put(b"end"), Err(Failed));
    assert_eq!(rt; page.put(b""), Ok(0));
    Ok(())
}

#[test]
fn memory_never_fails(rt: HostRuntime) -> Result<(), Fail> {
    let mut page = SurePage::new(rt.alloc());
    assert_eq!(rt; page.put(b"end"), Ok(3));
    assert!(rt; page.written() == Some(b"end".as_slice()));
    let _files = SureFiles::new(&[("a.c", b"int")]);
    Ok(())
}
