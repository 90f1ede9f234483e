use crate::pump;
use c_lex::{
    IntConstant, LexStop, Longs, Token, TokenKind, char_value, int_constant, string_bytes, tokens,
};
use std::alloc::{AllocError, Global};

fn letter(kind: TokenKind) -> char {
    match kind {
        TokenKind::Keyword => 'K',
        TokenKind::Name => 'N',
        TokenKind::Int => 'I',
        TokenKind::Float => 'F',
        TokenKind::Char => 'C',
        TokenKind::Str => 'S',
        TokenKind::Punct => 'P',
    }
}

fn push_slice(out: &mut String, file: &[u8], at: u32, len: u32) -> Result<(), AllocError> {
    for b in file.iter().skip(at as usize).take(len as usize) {
        out.push(char::from(*b))?;
    }
    Ok(())
}

fn push_token(
    alloc: Global,
    out: &mut String,
    file: &[u8],
    token: Token,
) -> Result<(), AllocError> {
    out.push(letter(token.kind))?;
    out.push(' ')?;
    push_slice(out, file, token.at, token.len)?;
    let line = token.place.line;
    out.push_str(format!(in alloc; " {line}")?.as_str())?;
    if token.place.name_at != 0 {
        out.push(' ')?;
        push_slice(out, file, token.place.name_at, token.place.name_len)?;
    }
    out.push('\n')
}

/// A line for each token: kind, text, line, and the name behind the last marker; or the stop.
fn shown(alloc: Global, file: &[u8]) -> Result<String, AllocError> {
    let mut out = String::new(alloc);
    if file.len() > 1048576 {
        return Ok(out);
    }
    match tokens(alloc, file) {
        Ok(tokens) => {
            for token in &tokens {
                push_token(alloc, &mut out, file, *token)?;
            }
            Ok(out)
        }
        Err(LexStop::BadByte { at, place }) => format!(in alloc; "1 at {at} line {}", place.line),
        Err(LexStop::BadToken { at, place }) => format!(in alloc; "2 at {at} line {}", place.line),
        Err(LexStop::LiteralTooWide { at, place }) => format!(in alloc;
            "3 at {at} line {}",
            place.line
        ),
        Err(LexStop::Memory) => Err(AllocError),
    }
}

#[test]
fn tokens_of_texts(rt: HostRuntime) -> Result<(), AllocError> {
    let table: [(&[u8], &str); 34] = [
        (b"", ""),
        (b"int x;", "K int 1\nN x 1\nP ; 1\n"),
        (b"a+++++b", "N a 1\nP ++ 1\nP ++ 1\nP + 1\nN b 1\n"),
        (b"x<<=1>>=2...", "2 at 8 line 1"),
        (b"a <<= b >>= c", "N a 1\nP <<= 1\nN b 1\nP >>= 1\nN c 1\n"),
        (b"..", "P . 1\nP . 1\n"),
        (b"...", "P ... 1\n"),
        (b"p->q", "N p 1\nP -> 1\nN q 1\n"),
        (b"<: %:", "P < 1\nP : 1\nP % 1\nP : 1\n"),
        (b"a/*b*/c//d\ne", "N a 1\nN c 1\nN e 2\n"),
        (b"/* a\n\n b */ x", "N x 3\n"),
        (b"/ /= //", "P / 1\nP /= 1\n"),
        (
            b"0 07 0xfFuL 12ull 3LLU",
            "I 0 1\nI 07 1\nI 0xfFuL 1\nI 12ull 1\nI 3LLU 1\n",
        ),
        (
            b"1.0 .5 1e5 1.e-3f 0x1p3 0x.8P+2L 09.5",
            "F 1.0 1\nF .5 1\nF 1e5 1\nF 1.e-3f 1\nF 0x1p3 1\nF 0x.8P+2L 1\nF 09.5 1\n",
        ),
        (b"18446744073709551615", "I 18446744073709551615 1\n"),
        (
            b"'a' '\\n' '\\377' '\\x0041' '\"'",
            "C 'a' 1\nC '\\n' 1\nC '\\377' 1\nC '\\x0041' 1\nC '\"' 1\n",
        ),
        (b"\"a\\\"b\" \"\"", "S \"a\\\"b\" 1\nS \"\" 1\n"),
        (
            b"L'a' L\"b\" u8\"c\" u'd' U\"e\" u8'f'",
            "C L'a' 1\nS L\"b\" 1\nS u8\"c\" 1\nC u'd' 1\nS U\"e\" 1\nN u8 1\nC 'f' 1\n",
        ),
        (
            b"__const __volatile__ __signed__ __signed",
            "K __const 1\nK __volatile__ 1\nK __signed__ 1\nN __signed 1\n",
        ),
        (
            b"__extension__ __inline int __restrict__ x",
            "K int 1\nN x 1\n",
        ),
        (
            b"int x __attribute__((aligned(4))) ;",
            "K int 1\nN x 1\nP ; 1\n",
        ),
        (b"__attribute__ /* ( */ ( 1 ) x", "N x 1\n"),
        (b"__attribute__(( a __attribute__((b)) c )) d", "N d 1\n"),
        (b"# 7 \"a.c\"\nx\ny", "N x 7 a.c\nN y 8 a.c\n"),
        (b"x\n# 7 \"\" 1 3 4\ny", "N x 1\nN y 7 \n"),
        (
            b"#line 0012 \"a\\\"b\"\r\nx\r\ny\r\n",
            "N x 12 a\\\"b\nN y 13 a\\\"b\n",
        ),
        (b"  #  2147483647\"b\"\nx", "N x 2147483647 b\n"),
        (b"# 3 \"a\"", ""),
        (b"#pragma once\nx", "N x 2\n"),
        (b"  #  pragma\nx #y ##", "N x 2\nP # 2\nN y 2\nP ## 2\n"),
        (b"/**/ # 1 \"a\"", "P # 1\nI 1 1\nS \"a\" 1\n"),
        (b"__attribute__\n# 5 \"a\"\n((b))\nc", "N c 6 a\n"),
        (
            b"\"\xc3\xa9\" 'x' /* \xff */",
            "S \"\u{c3}\u{a9}\" 1\nC 'x' 1\n",
        ),
        (b"\t\x0b\x0c x", "N x 1\n"),
    ];
    for (text, want) in table {
        let got = shown(rt.alloc(), text)?;
        assert_eq!(&rt; got.as_str(), want);
    }
    Ok(())
}

#[test]
fn stops_of_texts(rt: HostRuntime) -> Result<(), AllocError> {
    let table: [(&[u8], &str); 48] = [
        // the worked refusals: an unclosed literal, and a byte 0
        (b"char *s = \"ab", "2 at 10 line 1"),
        (b"int\0", "1 at 3 line 1"),
        (b"x\n\n @", "2 at 4 line 3"),
        (b"\x7f", "1 at 0 line 1"),
        (b"\xc3", "1 at 0 line 1"),
        (b"a\\\nb", "2 at 1 line 1"),
        (b"/* x", "2 at 0 line 1"),
        (b"/*/", "2 at 0 line 1"),
        (b"x /* \n \0 */", "1 at 7 line 2"),
        (b"/* \0", "2 at 0 line 1"),
        (b"// \x01", "1 at 3 line 1"),
        (b"\"a\0b\"", "1 at 2 line 1"),
        (b"\"a\0b\n\"", "2 at 0 line 1"),
        (b"\"\\q\0\"", "2 at 0 line 1"),
        (b" L\"a", "2 at 1 line 1"),
        (b"'ab'", "2 at 0 line 1"),
        (b"''", "2 at 0 line 1"),
        (b"'\\400'", "2 at 0 line 1"),
        (b"'\\x100'", "2 at 0 line 1"),
        (b"'\\x'", "2 at 0 line 1"),
        (b"'\\0001'", "2 at 0 line 1"),
        (b"\"\\u0041\"", "2 at 0 line 1"),
        (b"18446744073709551616", "3 at 0 line 1"),
        (b"\n0x1ffffffffffffffffULL", "3 at 1 line 2"),
        (b"02000000000000000000000", "3 at 0 line 1"),
        (b"08", "2 at 0 line 1"),
        (b"0x", "2 at 0 line 1"),
        (b"0b1", "2 at 0 line 1"),
        (b"1lul", "2 at 0 line 1"),
        (b"1e+", "2 at 0 line 1"),
        (b"0x1.8", "2 at 0 line 1"),
        (b"1.2.3", "2 at 0 line 1"),
        (b"x\n # 5\n", "2 at 3 line 2"),
        (b"#\n", "2 at 0 line 1"),
        (b"##", "2 at 0 line 1"),
        (b"#line 5\n", "2 at 0 line 1"),
        (b"# 2147483648 \"a\"\n", "2 at 0 line 1"),
        (b"# 1 \"a\" /* */\n", "2 at 0 line 1"),
        (b"#line 1 \"a\" 3\n", "2 at 0 line 1"),
        (b"# 1 \"a\n", "2 at 0 line 1"),
        (b"# 9 \"a\x01\"\n", "1 at 6 line 1"),
        (b"#pragma \xff\n", "1 at 8 line 1"),
        (b"#pragmas\n", "2 at 0 line 1"),
        (b"x __attribute__ y", "2 at 2 line 1"),
        (b"\n__attribute__((x)", "2 at 1 line 2"),
        (b"__attribute__((x __attribute__((y) ", "2 at 17 line 1"),
        (b"__attribute__((x @", "2 at 17 line 1"),
        (b"__attribute__ /* \0 */ x", "2 at 0 line 1"),
    ];
    for (text, want) in table {
        let got = shown(rt.alloc(), text)?;
        assert_eq!(&rt; got.as_str(), want);
    }
    Ok(())
}

/// A byte alone is a token, white space, or the stop that its class gives.
#[test]
fn each_byte_alone(rt: HostRuntime) -> Result<(), AllocError> {
    for b in 0..=255u8 {
        let got = shown(rt.alloc(), &[b])?;
        let alone = match b {
            9..=13 | b' ' => got.as_str().is_empty(),
            b'"' | b'\'' | b'#' | b'$' | b'@' | b'\\' | b'`' => got.as_str() == "2 at 0 line 1",
            b'!'..=b'~' => got.as_str().ends_with(" 1\n"),
            _ => got.as_str() == "1 at 0 line 1",
        };
        assert_eq!(&rt; alone, true);
    }
    Ok(())
}

#[test]
fn a_file_of_blanks(rt: HostRuntime) -> Result<(), AllocError> {
    let file = vec![in rt.alloc(); b' '; 1048576]?;
    assert_eq!(&rt; tokens(rt.alloc(), &file) == Ok(Vec::new(rt.alloc())), true);
    Ok(())
}

#[test]
fn a_preprocessed_file(rt: HostRuntime) -> Result<(), AllocError> {
    let got = shown(rt.alloc(), pump::FILE)?;
    assert_eq!(&rt; got.as_str(), pump::TOKENS);
    Ok(())
}

#[test]
fn constants(rt: HostRuntime) -> Result<(), AllocError> {
    let hexadecimal = IntConstant {
        value: 255,
        decimal: false,
        unsigned: true,
        longs: Longs::Two,
    };
    assert_eq!(&rt; int_constant(b"0xFFuLL"), Some(hexadecimal));
    assert_eq!(&rt;
        int_constant(b"10").is_some_and(|c| c.value == 10 && c.decimal),
        true
    );
    assert_eq!(&rt; int_constant(b"18446744073709551616"), None);
    assert_eq!(&rt; int_constant(b"1.0"), None);
    assert_eq!(&rt; char_value(b"'a'"), Some(97));
    assert_eq!(&rt; char_value(b"'\\377'"), Some(-1));
    assert_eq!(&rt; char_value(b"L'\\n'"), Some(10));
    assert_eq!(&rt; char_value(b"'ab'"), None);
    let bytes = string_bytes(rt.alloc(), b"u8\"a\\x41\\n\\0b\"")?;
    assert_eq!(&rt; bytes.as_slice() == b"aA\n\0b".as_slice(), true);
    Ok(())
}
