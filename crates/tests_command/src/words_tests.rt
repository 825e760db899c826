use mc_command_line::{Bounds, Command, query_text, read_words};
use std::alloc::{AllocError, Global};
use std::process::Abort;
use std::test::Fail;

fn words(alloc: Global, list: &[&str]) -> Result<Vec<String>, AllocError> {
    let mut words = Vec::new(alloc);
    for word in list {
        words.push(String::from_str(alloc, word)?)?;
    }
    Ok(words)
}

fn show_text(shown: &mut String, text: &str) -> Result<(), AllocError> {
    shown.push_str(" <")?;
    shown.push_str(text)?;
    shown.push_str(">")
}

fn show_texts(shown: &mut String, texts: &[&str]) -> Result<(), AllocError> {
    for text in texts {
        show_text(shown, text)?;
    }
    Ok(())
}

fn show_bounds(alloc: Global, shown: &mut String, bounds: Bounds) -> Result<(), AllocError> {
    let text = format!(in alloc; " {} {}", bounds.budget, bounds.depth)?;
    shown.push_str(text.as_str())
}

/// A command as text: its word, its bounds, and each of its texts between angle brackets.
fn shown(alloc: Global, command: &Option<Command<'_>>) -> Result<String, AllocError> {
    let mut shown = String::new(alloc);
    match command {
        None => shown.push_str("none")?,
        Some(Command::Check(files)) => {
            shown.push_str("check")?;
            show_texts(&mut shown, files.as_slice())?;
        }
        Some(Command::Run(bounds, files)) => {
            shown.push_str("run")?;
            show_bounds(alloc, &mut shown, *bounds)?;
            show_texts(&mut shown, files.as_slice())?;
        }
        Some(
            Command::Query {
                first,
                bounds,
                goal,
                files,
            },
        ) => {
            shown.push_str(if *first { "query first" } else { "query" })?;
            show_bounds(alloc, &mut shown, *bounds)?;
            show_text(&mut shown, goal)?;
            show_texts(&mut shown, files.as_slice())?;
        }
    }
    Ok(shown)
}

/// Words behind the program's name, and the command that they mean.
type Line = (&'static [&'static str], &'static str);

fn check_lines(rt: &impl Abort, alloc: Global, lines: &[Line]) -> Result<(), AllocError> {
    for (behind, meaning) in lines {
        let mut list = words(alloc, ["merc"].as_slice())?;
        for word in *behind {
            list.push(String::from_str(alloc, word)?)?;
        }
        let Ok(command) = read_words(alloc, &list) else {
            assert!(rt; false, "want of memory");
            return Ok(());
        };
        let text = shown(alloc, &command)?;
        assert_eq!(rt; text.as_str(), *meaning);
    }
    Ok(())
}

const CHECKS: [Line; 7] = [
    (&[], "none"),
    (&["check"], "none"),
    (&["check", "f", "g", "f"], "check <f> <g> <f>"),
    (&["check", "-", "--", "-"], "check <-> <->"),
    (&["check", "--", "-x", "--first"], "check <-x> <--first>"),
    (&["check", "f", "-x"], "none"),
    (&["check", "--budget=5", "f"], "none"),
];

const RUNS: [Line; 12] = [
    (&["run", "f"], "run 10000000 1000000 <f>"),
    (
        &["run", "--depth", "7", "f", "--budget", "5", "g"],
        "run 5 7 <f> <g>",
    ),
    (&["run", "f", "--depth=7", "g"], "run 10000000 7 <f> <g>"),
    (&["run", "--budget", "5", "--budget=5", "f"], "none"),
    (&["run", "f", "--budget"], "none"),
    (&["run", "--budget", "-5", "f"], "none"),
    (&["run", "--budget=+5", "f"], "none"),
    (&["run", "--budget=0", "f"], "none"),
    (&["run", "--budget=0000000001", "f"], "none"),
    (&["run", "--budget=100000001", "f"], "none"),
    (
        &["run", "--budget", "5", "--", "--budget", "5"],
        "run 5 1000000 <--budget> <5>",
    ),
    (&["run", "--bud=5", "f"], "none"),
];

const QUERIES: [Line; 8] = [
    (&["query", "g"], "none"),
    (
        &["query", "g", "--first", "f"],
        "query first 10000000 1000000 <g> <f>",
    ),
    (
        &["query", "--", "-g", "f"],
        "query 10000000 1000000 <-g> <f>",
    ),
    (&["query", "--first", "--first", "g", "f"], "none"),
    (&["query", "--first=true", "g", "f"], "none"),
    (&["query", "---", "g", "f"], "none"),
    (
        &["query", "help", "help"],
        "query 10000000 1000000 <help> <help>",
    ),
    (
        &["query", "p(X), X = 'é'", "é.m"],
        "query 10000000 1000000 <p(X), X = 'é'> <é.m>",
    ),
];

const OTHERS: [Line; 3] = [
    (&["help", "check"], "none"),
    (&["checks", "f"], "none"),
    (&["--", "check", "f"], "none"),
];

#[test]
fn lists_of_words_and_their_meanings(rt: HostRuntime) -> Result<(), Fail> {
    let alloc = rt.alloc();
    check_lines(&rt, alloc, CHECKS.as_slice())?;
    check_lines(&rt, alloc, RUNS.as_slice())?;
    check_lines(&rt, alloc, QUERIES.as_slice())?;
    check_lines(&rt, alloc, OTHERS.as_slice())?;
    Ok(())
}

#[test]
fn there_are_one_to_64_files(rt: HostRuntime) -> Result<(), Fail> {
    let alloc = rt.alloc();
    let mut list = words(alloc, ["merc", "query", "g"].as_slice())?;
    for _file in 0..64 {
        list.push(String::from_str(alloc, "f")?)?;
    }
    assert!(rt; matches!(read_words(alloc, &list), Ok(Some(Command::Query { .. }))));
    list.push(String::from_str(alloc, "f")?)?;
    assert!(rt; matches!(read_words(alloc, &list), Ok(None)));
    Ok(())
}

#[test]
fn a_goal_gets_the_full_stop_that_it_lacks(rt: HostRuntime) -> Result<(), Fail> {
    let alloc = rt.alloc();
    let bare = query_text(alloc, "p(X)")?;
    assert_eq!(rt; bare.as_slice(), b"p(X) .\n".as_slice());
    let stopped = query_text(alloc, "p(X).")?;
    assert_eq!(rt; stopped.as_slice(), b"p(X).\n".as_slice());
    let blanks = query_text(alloc, "p(X). \t\n")?;
    assert_eq!(rt; blanks.as_slice(), b"p(X). \t\n\n".as_slice());
    let empty = query_text(alloc, "")?;
    assert_eq!(rt; empty.as_slice(), b" .\n".as_slice());
    let comma = query_text(alloc, "p(X).,")?;
    assert_eq!(rt; comma.as_slice(), b"p(X)., .\n".as_slice());
    Ok(())
}
