ghost use Rattle.std.specs.Prelude.{◌≡◌, ◌≤◌, ◌++◌, ℕ, List, IfOk, string_bytes};
ghost use Rattle.generated.specs.Text as spec;

use std::alloc::{AllocError, Global};

/// Want of memory.
#[derive(Clone, Copy, Debug, PartialEq, Eq)]
pub struct Memory;

impl From<AllocError> for Memory {
    ghost from_gives = { λ _ _. Unit {0} };

    fn from(_: AllocError) -> Memory {
        Memory
    }
}

fn add(text: &mut Vec<u8>, line: &str) -> Result<(), Memory>
    ensures { IfOk result (λ _. text.new.items ≡ text.old.items ++ line.now) }
{
    text.extend_from_slice(line.as_bytes())?;
    Ok(())
}

fn declarations(alloc: Global, n: u32) -> Result<Vec<u8>, Memory>
    ensures { IfOk result (λ text. text.items ≡ spec.declarations n) }
{
    let mut text = Vec::new(alloc);
    for i in 0..n {
        let line = format!(in alloc; "int g{i};\n")?;
        add(&mut text, line.as_str())?;
    }
    Ok(text)
}

fn assignments(alloc: Global, n: u32) -> Result<Vec<u8>, Memory>
    ensures { IfOk result (λ text. text.items ≡ spec.assignments n) }
{
    let mut text = Vec::new(alloc);
    for i in 0..n {
        let line = format!(in alloc; "if (c) g{i} = {i};\n")?;
        add(&mut text, line.as_str())?;
    }
    Ok(text)
}

fn entry(alloc: Global, n: u32, k: u32) -> Result<Vec<u8>, Memory>
    ensures { IfOk result (λ text. text.items ≡ spec.entry n k) }
{
    let mut text = Vec::new(alloc);
    let head = format!(in alloc; "void e{k}(void) {{\n")?;
    add(&mut text, head.as_str())?;
    let body = assignments(alloc, n)?;
    text.extend_from_slice(body.as_slice())?;
    let end = format!(in alloc; "g0 = {k};\n}}\n")?;
    add(&mut text, end.as_str())?;
    Ok(text)
}

fn entries(alloc: Global, n: u32) -> Result<Vec<u8>, Memory>
    ensures { IfOk result (λ text. text.items ≡ spec.entries n 8) }
{
    let mut text = Vec::new(alloc);
    for k in 0..8 {
        let one = entry(alloc, n, k)?;
        text.extend_from_slice(one.as_slice())?;
    }
    Ok(text)
}

/// The program with `n` objects and the entries `e0` to `e7`.
pub fn gen_text(alloc: Global, n: u32) -> Result<Vec<u8>, Memory>
    requires some { 1 ≤ n }
    requires few { n ≤ 1000 }
    ensures { IfOk result (λ text. text.items ≡ spec.generated_text n) }
{
    let mut text = Vec::new(alloc);
    add(&mut text, "volatile int c;\n")?;
    let objects = declarations(alloc, n)?;
    text.extend_from_slice(objects.as_slice())?;
    let all = entries(alloc, n)?;
    text.extend_from_slice(all.as_slice())?;
    Ok(text)
}

#[cfg(test)]
mod tests {
    use super::*;
    use std::test::Fail;

    #[test]
    fn the_smallest_has_nine_lines_and_more(rt: HostRuntime) -> Result<(), Fail> {
        let text = gen_text(rt.alloc(), 1).expect(&rt, "text");
        let begin =
            b"volatile int c;\nint g0;\nvoid e0(void) {\nif (c) g0 = 0;\ng0 = 0;\n}\nvoid e1(void) {\nif (c) g0 = 0;\ng0 = 1;\n}\n";
        assert!(rt; text.as_slice().starts_with(begin));
        assert!(rt; text.as_slice().ends_with(b"g0 = 7;\n}\n"));
        Ok(())
    }
}
