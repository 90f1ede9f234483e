use crate::{Command, Input, WordsStop, read_words};
use std::alloc::{AllocError, Global};
use std::test::Fail;

fn words_of(alloc: Global, words: &[&str]) -> Result<Vec<String>, AllocError> {
    let mut list = Vec::new(alloc);
    for word in words {
        list.push(String::from_str(alloc, word)?)?;
    }
    Ok(list)
}

fn read(alloc: Global, words: &[&str]) -> Result<Command, WordsStop> {
    let list = words_of(alloc, words)?;
    read_words(alloc, list.as_slice())
}

/// Whether the words have a meaning, as text.
fn verdict(alloc: Global, words: &[&str]) -> &'static str {
    match read(alloc, words) {
        Ok(_) => "read",
        Err(WordsStop::Usage) => "usage",
        Err(WordsStop::Memory) => "memory",
    }
}

/// The lines whose words, which `|` parts, have another verdict.
fn wrong(alloc: Global, lines: &[&str], wanted: &str) -> Result<String, AllocError> {
    let mut out = String::new(alloc);
    for line in lines {
        let mut words = Vec::new(alloc);
        for word in line.split('|') {
            words.push(word)?;
        }
        if verdict(alloc, words.as_slice()) != wanted {
            out.push_str(format!(in alloc; "{line}\n")?.as_str())?;
        }
    }
    Ok(out)
}

#[test]
fn words_without_a_meaning_are_refused(rt: HostRuntime) -> Result<(), AllocError> {
    assert_eq!(rt; verdict(rt.alloc(), &[]), "usage");
    let cases: [&str; 67] = [
        "a.c",
        "--help",
        "-h",
        "a.c|f|--help",
        "--version",
        "--workers|0|a.c|f",
        "--workers|65|a.c|f",
        "--workers=|a.c|f",
        "--workers|a.c|f",
        "--workers|-1|a.c|f",
        "--workers|+1|a.c|f",
        "--workers|1x|a.c|f",
        "--workers|1|--workers|2|a.c|f",
        "--workers=1|--workers|1|a.c|f",
        "--cache|3|a.c|f",
        "--cache|17|a.c|f",
        "--rows|9|a.c|f",
        "--rows|21|a.c|f",
        "--rows|0x10|a.c|f",
        "--steps|0|a.c|f",
        "--steps|1000000001|a.c|f",
        "--steps|9999999999|a.c|f",
        "--steps|00000000001|a.c|f",
        "--slevel|201|a.c|f",
        "--slevel|a.c|f",
        "-a.c|f",
        "a.c|-f",
        "--|--",
        "a.c|",
        "|f",
        "--step|1|a.c|f",
        "--Steps|1|a.c|f",
        "-steps|1|a.c|f",
        "--steps",
        "a.c|f|--steps",
        "--steps|--|a.c|f",
        "--no-steps|a.c|f",
        "-|f",
        "a.c|-",
        "--=|a.c|f",
        "--steps =1|a.c|f",
        "gen:0|e0",
        "gen:1001|e0",
        "gen:00001|e0",
        "gen:|e0",
        "gen:x|e0",
        "gen:1x|e0",
        "gen:-1|e0",
        "--workers|٣|a.c|f",
        "--workers| 1|a.c|f",
        "--rows|21|b|f|--workers|f",
        "--slevel=0|gen:+1|e0",
        "a.c|--cache=16|--slevel|0|f|--cache=0",
        "gen:1000x|--cache|4",
        "-c.c|f",
        "b|--steps=-1|--steps=3|--steps|1.0|g|--rows|10|--",
        "gen:1|--slevel=-|e0|--",
        "--steps|gen:+1|--cache=16|e0|--steps=1000|e0|--steps=0",
        "gen: 1",
        "--rows|0000000012|--steps=0|--rows=10|a.c|--rows|20|f",
        "--workers=201|--|f |a.c|--workers|F",
        "gen:00001",
        "--steps=4294967296|GEN:1|f|--rows|20|f",
        "-c.c|--slevel|-1|--workers=64|f|--workers=64",
        "--steps=17|gen:|e0",
        "--cache=0|--help|nofile|--cache=0|--steps|3",
        "gen: 1|e0|e0|gen: 1|--slevel=1",
    ];
    let out = wrong(rt.alloc(), &cases, "usage")?;
    assert_eq!(rt; out.as_str(), "");
    Ok(())
}

#[test]
fn words_with_a_meaning_are_read(rt: HostRuntime) -> Result<(), AllocError> {
    let cases: [&str; 82] = [
        "a.c|f",
        "f|a.c",
        "a.c|f|f",
        "a.c|h|f",
        "--workers|1|a.c|f",
        "--workers|64|a.c|f",
        "--workers=2|a.c|f",
        "a.c|f|--workers|3",
        "a.c|--workers|3|f",
        "--cache|0|a.c|f",
        "--cache|4|a.c|f",
        "--cache|16|a.c|f",
        "--rows|10|a.c|f",
        "--rows|20|a.c|f",
        "--steps|1|a.c|f",
        "--steps|1000000000|a.c|f",
        "--steps|0000000001|a.c|f",
        "--steps|007|a.c|f",
        "--slevel|0|a.c|f",
        "--slevel|200|a.c|f",
        "--|a.c|f",
        "--|a.c|f|--workers",
        "a.c|--|f",
        "a.c|f|--",
        "a.c|f|--|f",
        "--|-a.c|f",
        "a.c|--|-f",
        "a.c|--|--",
        "a.c|f|--|--",
        "--|--|--",
        "nofile|f",
        "gen:1|e0",
        "gen:1|e7|e0",
        "gen:1|e8",
        "gen:2|e0",
        "gen:1000|e3",
        "gen:01|e0",
        "gen:0001|e0",
        "GEN:1|e0",
        "gen|f",
        "--steps|4|gen:1|e0",
        "--steps|5|gen:1|e0|e0",
        "--slevel|3|gen:2|e1",
        "--workers|8|--cache|4|--rows|12|gen:9|e0|e1|e2|e3|e4|e5|e6|e7",
        "--|gen:1|e0",
        "a.c|nope",
        "a.c|f|nope|h",
        "a.c|F",
        "a.c|f ",
        "./a.c|f",
        "a.c|é",
        "é.c|f",
        "a.c|f|f|f|f|f|f|f|f|f|f|f|f|f|f|f|f|f|f|f|f",
        "--cache|007|a.c|f",
        "é.c|h",
        "bé|h",
        "a.c|fé",
        "gen:1|é",
        "--rows|0000000012|a.c|f",
        "--workers=64|--slevel|200|b|f|f",
        "a.c|--steps=3|F|--slevel=200",
        "--rows=20|a.c|f|f",
        "b|f|f|f",
        "a.c|--|f|f|f",
        "nofile|f|f|--steps|1000|--slevel|1|--rows=0000000012",
        "b|f|f|--workers|1",
        "--slevel|0|--cache|16|--|gen:1|e0",
        "a.c|f|a=b|f|--workers=1|--cache=00|--rows=0000000012",
        "a.c|f|--rows|0000000012",
        "a.c|f|--steps=1000",
        "a.c|f|--steps|3",
        "a.c|--workers=64|f",
        "--slevel|1|a.c|--steps|3|f",
        "a.c|f|--steps=1000|f|--slevel|1|--cache|16",
        "gen:1|e0|e0",
        "b|--rows|0000000012|f",
        "gen:1|e0|e0|--|e0",
        "a.c|f|f|--rows=10|f",
        "a.c|f|f|--cache=16",
        "a.c|--cache=16|f",
        "a.c|g|f|f",
        "nofile|--|f",
    ];
    let out = wrong(rt.alloc(), &cases, "read")?;
    assert_eq!(rt; out.as_str(), "");
    Ok(())
}

#[test]
fn options_stand_anywhere(rt: HostRuntime) -> Result<(), Fail> {
    let words: [&str; 7] = ["g.c", "--steps", "007", "a", "--cache=0", "--", "-b"];
    let command = read(rt.alloc(), &words).expect(&rt, "a command");
    assert!(rt;
        command.settings.steps == 7
            && command.settings.cache_log == 0
            && command.settings.workers == 4
    );
    assert!(rt; command.entries.len() == 2);
    let named = match &command.input {
        Input::Named(word) => word.as_str() == "g.c",
        Input::Generated(_) => false,
    };
    assert!(rt; named);
    Ok(())
}
