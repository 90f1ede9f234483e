use c_input::SyntaxStop;
use c_lex::{LONGEST, tokens};
use c_syntax::parse;
use c_tree::{BlockItem, DeclForm, Ex, ExForm, Item, Spec, StmtForm};
use std::alloc::{AllocError, Global};

/// `tree`, or the number of the stop and its token.
fn verdict(alloc: Global, file: &str) -> Result<String, AllocError> {
    let file = file.as_bytes();
    if file.len() > LONGEST {
        return format!(in alloc; "long");
    }
    let Ok(tokens) = tokens(alloc, file) else {
        return format!(in alloc; "lex");
    };
    if tokens.len() > LONGEST {
        return format!(in alloc; "long");
    }
    match parse(alloc, file, tokens.as_slice()) {
        Ok(_) => format!(in alloc; "tree"),
        Err(SyntaxStop::Syntax { at }) => format!(in alloc; "1 at {at}"),
        Err(SyntaxStop::TooDeep { at }) => format!(in alloc; "2 at {at}"),
        Err(SyntaxStop::OutOfProfile { at }) => format!(in alloc; "3 at {at}"),
        Err(SyntaxStop::Memory) => format!(in alloc; "memory"),
    }
}

/// The rows whose verdict is another, with it.
fn wrong(alloc: Global, rows: &[(&str, &str)]) -> Result<String, AllocError> {
    let mut out = String::new(alloc);
    for (file, wanted) in rows {
        let found = verdict(alloc, file)?;
        if found.as_str() != *wanted {
            out.push_str(format!(in alloc; "{file}: {found}, not {wanted}\n")?.as_str())?;
        }
    }
    Ok(out)
}

#[test]
fn trees_and_first_stops(rt: HostRuntime) -> Result<(), AllocError> {
    let rows: [(&str, &str); 29] = [
        ("", "tree"),
        (";", "tree"),
        ("int x;", "tree"),
        ("int x { }", "tree"),
        ("typedef int f(void) { }", "tree"),
        ("static x;", "tree"),
        ("int int x;", "tree"),
        ("const x;", "tree"),
        ("int;", "tree"),
        ("x;", "1 at 0"),
        ("f(void) {}", "1 at 0"),
        ("int x", "1 at 2"),
        ("int (*(*p)[3])(void);", "tree"),
        ("typedef int T; T(x);", "tree"),
        ("typedef int T; unsigned T x;", "1 at 6"),
        ("typedef int foo; int f(int foo, foo x);", "1 at 10"),
        ("typedef int foo; int f(foo x);", "tree"),
        ("int f(foo x);", "3 at 3"),
        ("int (*)(x);", "1 at 3"),
        ("struct { };", "1 at 2"),
        ("struct { ; };", "1 at 2"),
        ("struct { int; } s;", "tree"),
        ("enum { };", "1 at 2"),
        ("enum { A, B = 2, } e;", "tree"),
        ("int a[] = { 1, 2, };", "tree"),
        ("int a[] = { };", "1 at 6"),
        ("int a[] = { [0] = 1, .x = 2 };", "tree"),
        ("int a[2][2] = { [0][1] = 1 };", "3 at 13"),
        ("int a[] = { [0 ... 1] = 1 };", "1 at 8"),
    ];
    let found = wrong(rt.alloc(), &rows)?;
    assert_eq!(&rt; found.as_str(), "");
    Ok(())
}

#[test]
fn left_out_constructs(rt: HostRuntime) -> Result<(), AllocError> {
    let rows: [(&str, &str); 24] = [
        ("_Atomic int x;", "3 at 0"),
        ("_Static_assert(1, \"\");", "3 at 0"),
        ("int x = _Alignof(int);", "3 at 3"),
        ("asm(\"\");", "3 at 0"),
        ("int asm;", "3 at 1"),
        ("int x = asm;", "3 at 3"),
        ("int x = 1 + union;", "1 at 5"),
        ("char *s = L\"a\";", "3 at 4"),
        ("char *s = u8\"a\";", "tree"),
        ("int c = L'a';", "3 at 3"),
        ("int x = (int){1};", "3 at 6"),
        ("int x = sizeof (int){1};", "3 at 7"),
        ("int x = ++ (int){1};", "1 at 5"),
        ("int x = ({1;});", "3 at 4"),
        ("int x = sizeof ({1;});", "3 at 5"),
        ("int f(int a[*]);", "3 at 7"),
        ("int f(int a[const *]);", "3 at 8"),
        ("int f(int [const *]);", "1 at 7"),
        ("int f(int a[static *]);", "1 at 8"),
        ("int a[*p];", "tree"),
        ("int f(a) int a; { }", "3 at 3"),
        ("int f(int a, ...);", "tree"),
        ("int f(...);", "1 at 3"),
        (
            "void f(int x) { switch (x) { case 1 ... 2: ; } }",
            "3 at 14",
        ),
    ];
    let found = wrong(rt.alloc(), &rows)?;
    assert_eq!(&rt; found.as_str(), "");
    Ok(())
}

#[test]
fn unions_and_bit_fields(rt: HostRuntime) -> Result<(), AllocError> {
    let rows: [(&str, &str); 22] = [
        ("union U x;", "tree"),
        ("union { };", "1 at 2"),
        ("typedef int T; union T { int T; } T;", "tree"),
        ("typedef int T; union U T; T x;", "1 at 8"),
        ("union int x;", "1 at 1"),
        ("int x = sizeof (union U { int a; });", "tree"),
        ("void f(union U *p) { union V v; (union U *) p; }", "tree"),
        ("void f(void) { for (union U u; ; ) ; }", "tree"),
        ("struct { int a : 3; } s;", "tree"),
        ("struct { int : 3; } s;", "tree"),
        ("struct { int a : 3, : 0, b, *c : 1 + 1; } s;", "tree"),
        (
            "typedef int T; struct { T T : 3; T : 2; const T : 1; } s;",
            "tree",
        ),
        ("struct { a : 3; } s;", "1 at 2"),
        ("struct { : 3; } s;", "1 at 2"),
        ("struct { int a : ; } s;", "1 at 5"),
        ("struct { int a : 1, 2; } s;", "1 at 7"),
        ("struct { int a : 1 : 2; } s;", "1 at 6"),
        ("struct { int a : b = 1; } s;", "1 at 6"),
        ("struct { int a : 1 ? 2 : 3; } s;", "tree"),
        ("struct { int * : 3; } s;", "1 at 4"),
        ("int a : 3;", "1 at 2"),
        ("int f(int a : 3);", "1 at 5"),
    ];
    let found = wrong(rt.alloc(), &rows)?;
    assert_eq!(&rt; found.as_str(), "");
    Ok(())
}

#[test]
fn statements_and_scopes(rt: HostRuntime) -> Result<(), AllocError> {
    let rows: [(&str, &str); 17] = [
        (
            "typedef int T; struct T { int T; }; struct T s; enum U { A = sizeof s.T }; T y;",
            "tree",
        ),
        (
            "void f(void) { if (1) if (2) ; else ; else ; else ; }",
            "1 at 19",
        ),
        ("void f(void) { a = b = c ? d : e ? 1 : 2; }", "tree"),
        ("void f(void) { a ? b : c = d; }", "1 at 11"),
        ("void f(void) { (a) = 1; -a = 1; a + b = 1; }", "1 at 20"),
        (
            "typedef int T; void f(void) { { int T; T * 2; } T * p; }",
            "tree",
        ),
        (
            "typedef int T; void f(void) { { int T; } T = 2; }",
            "1 at 16",
        ),
        ("typedef int T; void f(int T) { T = 2; }", "tree"),
        (
            "typedef int T; void f(void) { T: goto T; (T) 1; sizeof (T) * 2; }",
            "tree",
        ),
        (
            "typedef int T; struct S { int T; }; void f(struct S s) { s.T = 1; T x; }",
            "tree",
        ),
        (
            "void f(void) { for (int i = 0; i < 3; ++i) ; for (;;) ; do ; while (1); }",
            "tree",
        ),
        (
            "void f(void) { switch (1) { case 1: case 2: ; default: break; } }",
            "tree",
        ),
        ("void f(void) { L: }", "1 at 8"),
        (
            "void f(void) { return 1, 2; continue; x++; y--; s->x[1](2, 3); }",
            "tree",
        ),
        (
            "void f(void) { (int) x; (x) (y); sizeof x; sizeof (x) [1]; }",
            "tree",
        ),
        ("void f(void) { if (sizeof (enum { A })) ; int A; }", "tree"),
        ("void f(void) {", "1 at 6"),
    ];
    let found = wrong(rt.alloc(), &rows)?;
    assert_eq!(&rt; found.as_str(), "");
    Ok(())
}

/// A file with a text so many times in its middle.
fn repeated(
    alloc: Global,
    front: &str,
    part: &str,
    count: u32,
    back: &str,
) -> Result<String, AllocError> {
    let mut file = String::new(alloc);
    file.push_str(front)?;
    for _ in 0..count {
        file.push_str(part)?;
    }
    file.push_str(back)?;
    Ok(file)
}

#[test]
fn depth_is_exact(rt: HostRuntime) -> Result<(), AllocError> {
    let alloc = rt.alloc();
    let start = "int f(void) { return ";
    let structs = "struct { ";
    let rows = [
        (
            repeated(alloc, structs, "struct { ", 198, "int :")?,
            "1 at 400",
        ),
        (
            repeated(alloc, structs, "struct { ", 199, "int :")?,
            "2 at 401",
        ),
        (
            repeated(alloc, structs, "union { ", 199, "int a :")?,
            "2 at 401",
        ),
        (
            repeated(alloc, structs, "union { ", 198, "int : 1")?,
            "1 at 401",
        ),
        (
            repeated(alloc, structs, "union { ", 198, "int : 1 +")?,
            "2 at 401",
        ),
        (
            repeated(alloc, structs, "union { ", 199, "int;")?,
            "1 at 402",
        ),
        (repeated(alloc, start, "(", 197, "7")?, "1 at 205"),
        (repeated(alloc, start, "(", 198, "7")?, "2 at 205"),
        (repeated(alloc, start, "(", 100000, "7")?, "2 at 205"),
        (repeated(alloc, start, "1 + ", 197, "1; }")?, "tree"),
        (repeated(alloc, start, "1 + ", 198, "1; }")?, "2 at 402"),
        (repeated(alloc, "int f(void) ", "{ ", 200, "")?, "1 at 205"),
        (repeated(alloc, "int f(void) ", "{ ", 201, "")?, "2 at 205"),
        (repeated(alloc, "int ", "*", 199, "p;")?, "tree"),
        (repeated(alloc, "int ", "*", 200, "p;")?, "2 at 201"),
        (repeated(alloc, "int a", "[1]", 199, ";")?, "tree"),
        (repeated(alloc, "int a", "[1]", 200, ";")?, "2 at 599"),
    ];
    for (file, wanted) in &rows {
        let found = verdict(alloc, file.as_str())?;
        assert_eq!(&rt; found.as_str(), *wanted);
    }
    Ok(())
}

#[test]
fn long_files(rt: HostRuntime) -> Result<(), AllocError> {
    let file = repeated(rt.alloc(), "int f(void) { ", "x = y + 1; ", 90000, "}")?;
    let found = verdict(rt.alloc(), file.as_str())?;
    assert_eq!(&rt; found.as_str(), "tree");
    let file = repeated(rt.alloc(), "", "int x; ", 140000, "")?;
    let found = verdict(rt.alloc(), file.as_str())?;
    assert_eq!(&rt; found.as_str(), "tree");
    Ok(())
}

/// A file as a preprocessor writes it.
const PUMP: &str = "# 0 \"pump.c\"
# 0 \"<built-in>\"
# 1 \"pump.c\"
# 1 \"/usr/include/stdint.h\" 1 3 4
typedef unsigned char __uint8_t;
typedef unsigned short int __uint16_t;
typedef __uint8_t uint8_t;
typedef __uint16_t uint16_t;
# 4 \"pump.c\" 2
extern uint16_t read_level(void);
enum mode { IDLE, FILL, STOP };
struct pump { enum mode mode; uint8_t ticks; };
static struct pump pump;
static const uint16_t limit[3] = { 100, 800, 1000 };
static int over(uint16_t v) { return v > limit[pump.mode]; }
void init(void) { pump.mode = IDLE; pump.ticks = 0; }
void step(void) {
  uint16_t v = read_level();
  switch (pump.mode) {
  case IDLE: if (v < 100) pump.mode = FILL; break;
  case FILL: if (over(v)) pump.mode = STOP; break;
  default: break;
  }
  pump.ticks++;
}
int ratio(uint8_t d) { return 1000 / (d - pump.ticks); }
";

#[test]
fn whole_files(rt: HostRuntime) -> Result<(), AllocError> {
    let rows: [(&str, &str); 4] = [
        (PUMP, "tree"),
        ("int main(void){return 7/0;}\n", "tree"),
        ("int f(void){return 6/4;}\n", "tree"),
        ("int limit(void)\n{\n  return 2147483647 + 1;\n}\n", "tree"),
    ];
    let found = wrong(rt.alloc(), &rows)?;
    assert_eq!(&rt; found.as_str(), "");
    Ok(())
}

/// The production of an expression.
fn production(e: &Ex) -> &'static str {
    match &e.form {
        ExForm::Name => "name",
        ExForm::Paren(_) => "paren",
        ExForm::Unary(_) => "unary",
        ExForm::Binary(_, _, _) => "binary",
        ExForm::Assign(_, _, _) => "assign",
        ExForm::Cond(_, _, _) => "cond",
        ExForm::Comma(_, _) => "comma",
        ExForm::Call(_, _) => "call",
        ExForm::Cast(_, _) => "cast",
        ExForm::SizeofType(_) => "sizeof type",
        ExForm::SizeofEx(_) => "sizeof",
        _ => "other",
    }
}

/// The production of an expression with those of its parts.
fn parts(alloc: Global, e: &Ex) -> Result<String, AllocError> {
    let own = production(e);
    match &e.form {
        ExForm::Binary(_, a, b) | ExForm::Assign(_, a, b) | ExForm::Comma(a, b) => {
            let (a, b) = (production(a.get()), production(b.get()));
            format!(in alloc; "{own}({a}, {b})")
        }
        ExForm::Cond(a, b, c) => {
            let (a, b, c) = (
                production(a.get()),
                production(b.get()),
                production(c.get()),
            );
            format!(in alloc; "{own}({a}, {b}, {c})")
        }
        ExForm::Call(a, _) => {
            let a = production(a.get());
            format!(in alloc; "{own}({a})")
        }
        ExForm::Cast(_, a) | ExForm::Unary(a) => {
            let a = production(a.get());
            format!(in alloc; "{own}({a})")
        }
        _ => format!(in alloc; "{own}"),
    }
}

/// The expression of the first statement of the last function in a file.
fn grouping(alloc: Global, file: &str) -> Result<String, AllocError> {
    let file = file.as_bytes();
    if file.len() > LONGEST {
        return format!(in alloc; "long");
    }
    let Ok(tokens) = tokens(alloc, file) else {
        return format!(in alloc; "lex");
    };
    if tokens.len() > LONGEST {
        return format!(in alloc; "long");
    }
    let Ok(unit) = parse(alloc, file, tokens.as_slice()) else {
        return format!(in alloc; "stop");
    };
    let Some(Item::Function { body, .. }) = unit.items.as_slice().last() else {
        return format!(in alloc; "no function");
    };
    let StmtForm::Block(items) = &body.form else {
        return format!(in alloc; "no block");
    };
    let Some(BlockItem::Stmt(first)) = items.as_slice().first() else {
        return format!(in alloc; "no statement");
    };
    match &first.form {
        StmtForm::Expr(Some(e)) => parts(alloc, e),
        StmtForm::If(_, then, None) => match &then.get().form {
            StmtForm::If(_, _, Some(_)) => format!(in alloc; "the inner if has the else"),
            _ => format!(in alloc; "no else"),
        },
        StmtForm::If(_, _, Some(_)) => format!(in alloc; "the outer if has the else"),
        _ => format!(in alloc; "another statement"),
    }
}

/// What the first declaration of a file declares in its first member line, with the place of each part and the production of
/// its width.
fn members(alloc: Global, file: &str) -> Result<String, AllocError> {
    let file = file.as_bytes();
    if file.len() > LONGEST {
        return format!(in alloc; "long");
    }
    let Ok(tokens) = tokens(alloc, file) else {
        return format!(in alloc; "lex");
    };
    if tokens.len() > LONGEST {
        return format!(in alloc; "long");
    }
    let Ok(unit) = parse(alloc, file, tokens.as_slice()) else {
        return format!(in alloc; "stop");
    };
    let Some(Item::Declaration(declaration)) = unit.items.as_slice().first() else {
        return format!(in alloc; "no declaration");
    };
    let Some(
        Spec::Struct {
            at,
            lines: Some(lines),
            ..
        },
    ) = declaration.specs.as_slice().first()
    else {
        return format!(in alloc; "no members");
    };
    let Some(line) = lines.as_slice().first() else {
        return format!(in alloc; "no line");
    };
    let mut out = format!(in alloc; "from {at}:")?;
    for part in line.parts.as_slice() {
        let at = part.declarator.at;
        let form = match &part.declarator.form {
            DeclForm::Name => "name",
            DeclForm::Abstract => "nameless",
            _ => "other",
        };
        let width = match &part.width {
            Some(e) => production(e),
            None => "no width",
        };
        out.push_str(format!(in alloc; " {form} {at} {width};")?.as_str())?;
    }
    Ok(out)
}

#[test]
fn members_and_widths(rt: HostRuntime) -> Result<(), AllocError> {
    let rows: [(&str, &str); 4] = [
        (
            "union U { int a, b; } x;",
            "from 0: name 4 no width; name 6 no width;",
        ),
        (
            "struct S { unsigned a : (3), : 1 + 1, b; };",
            "from 0: name 4 paren; nameless 10 binary; name 15 no width;",
        ),
        ("struct { int : 0; };", "from 0: nameless 3 other;"),
        (
            "union { int *p, q : x ? 1 : 2; };",
            "from 0: other 3 no width; name 6 cond;",
        ),
    ];
    for (file, wanted) in &rows {
        let found = members(rt.alloc(), file)?;
        assert_eq!(&rt; found.as_str(), *wanted);
    }
    Ok(())
}

#[test]
fn groupings(rt: HostRuntime) -> Result<(), AllocError> {
    let rows: [(&str, &str); 10] = [
        ("void f(void) { a = b = c; }", "assign(name, assign)"),
        (
            "void f(void) { a ? b : c ? d : e; }",
            "cond(name, name, cond)",
        ),
        ("void f(void) { a - b - c; }", "binary(binary, name)"),
        ("void f(void) { a + b * c; }", "binary(name, binary)"),
        ("void f(void) { a, b, c; }", "comma(comma, name)"),
        ("void f(void) { (a)(b); }", "call(paren)"),
        ("typedef int a; void f(void) { (a)(b); }", "cast(paren)"),
        (
            "typedef int T; void f(void) { sizeof (T) * p; }",
            "binary(sizeof type, name)",
        ),
        ("void f(void) { sizeof (t) * p; }", "binary(sizeof, name)"),
        (
            "void f(void) { if (a) if (b) ; else ; }",
            "the inner if has the else",
        ),
    ];
    for (file, wanted) in &rows {
        let found = grouping(rt.alloc(), file)?;
        assert_eq!(&rt; found.as_str(), *wanted);
    }
    Ok(())
}
