//! The top call over a shelf and a sink in memory.
use crate::top::psm;
use psm_files::Status;
use psm_io::{MemShelf, MemSink};
use std::alloc::Global;
use std::test::Fail;

const THREE_MODES: &str =
    "CREATE MODULE M PROCEDURE P ( IN A INTEGER , INOUT B INTEGER , OUT C INTEGER ) SET B = B - A + 1 ; END MODULE\n";

const FIVE_SEVEN: &str = "CALL P ( 5 , 7 , ? ) ;\n";

const THREE_LINES: &str = "1 CALL P\nB = 3\nC = NULL\nOK\n";

const THREE_MODES_LISTING: &str = "PSM 3 0 1
ROUTINE P 'P' 3 0 0 0 0 0 0 0 8 -
PAR IN 'A' INTEGER
PAR INOUT 'B' INTEGER
PAR OUT 'C' INTEGER
0 - - CLEAR
0 7 - VAR 1
0 7 N VAR 0
0 7 NN SUB
0 7 N CONST N 1
0 7 NN ADD
0 7 N STORE 1
0 - - END
";

fn file(alloc: Global, name: &str, text: &str) -> Result<(String, Vec<u8>), Fail> {
    let bytes = Vec::from_slice(alloc, text.as_bytes())?;
    Ok((String::from_str(alloc, name)?, bytes))
}

fn words(alloc: Global, text: &str) -> Result<Vec<String>, Fail> {
    let mut words = Vec::new(alloc);
    for word in text.split_whitespace() {
        words.push(String::from_str(alloc, word)?)?;
    }
    Ok(words)
}

// The status of a call over the files M and S, and what it wrote.
fn call(
    alloc: Global,
    given: &str,
    module_file: &str,
    script: &str,
) -> Result<(Status, String), Fail> {
    failing_call(
        alloc,
        given,
        module_file,
        script,
        Vec::new(alloc),
        Vec::new(alloc),
    )
}

// The same where the fetches of these numbers fail, and the puts of these numbers, which keep as many bytes as stand with them.
fn failing_call(
    alloc: Global,
    given: &str,
    module_file: &str,
    script: &str,
    fetches: Vec<u32>,
    puts: Vec<(u32, usize)>,
) -> Result<(Status, String), Fail> {
    let words = words(alloc, given)?;
    let mut held = Vec::new(alloc);
    held.push(file(alloc, "M", module_file)?)?;
    held.push(file(alloc, "S", script)?)?;
    let mut shelf = MemShelf::new(alloc, held, fetches);
    let mut out = MemSink::new(alloc, puts);
    let status = psm(alloc, &words, &mut shelf, &mut out);
    let written = Vec::from_slice(alloc, out.bytes())?;
    Ok((status, String::from_utf8(written).ok().ok_or("text")?))
}

#[test]
fn a_module_and_a_script_print_their_lines(rt: HostRuntime) -> Result<(), Fail> {
    let (answer, text) = call(rt.alloc(), "run M S", THREE_MODES, FIVE_SEVEN)?;
    assert_eq!(rt; answer, Status::Done);
    assert_eq!(rt; text.as_str(), THREE_LINES);
    Ok(())
}

#[test]
fn a_module_alone_is_listed(rt: HostRuntime) -> Result<(), Fail> {
    let (answer, text) = call(rt.alloc(), "compile M", THREE_MODES, "")?;
    assert_eq!(rt; answer, Status::Done);
    assert_eq!(rt; text.as_str(), THREE_MODES_LISTING);
    Ok(())
}

#[test]
fn a_listing_and_a_script_print_their_lines(rt: HostRuntime) -> Result<(), Fail> {
    let (answer, text) = call(rt.alloc(), "exec M S", THREE_MODES_LISTING, FIVE_SEVEN)?;
    assert_eq!(rt; answer, Status::Done);
    assert_eq!(rt; text.as_str(), THREE_LINES);
    let (answer, text) = call(
        rt.alloc(),
        "exec M S --turns 0",
        "PSM 3 0 1\nROUTINE P 'P' 0 0 0 0 0 0 0 0 2 -\n0 - - JMP 2\n0 - - END\n",
        "CALL p();",
    )?;
    assert_eq!(rt; answer, Status::ObjectRefused);
    assert_eq!(rt; text.as_str(), "object 3 F2 target outside the routine\n");
    Ok(())
}

#[test]
fn the_words_state_how_many_turns_there_are(rt: HostRuntime) -> Result<(), Fail> {
    let turning =
        "CREATE MODULE M PROCEDURE p (OUT s INTEGER) BEGIN DECLARE i INTEGER DEFAULT 0; SET s = 0; l: LOOP SET i = i + 1; IF i > 5 THEN LEAVE l; END IF; IF i = 3 THEN ITERATE l; END IF; SET s = s + i; END LOOP l; END; END MODULE";
    let done = "1 CALL P\nS = 12\nOK\n";
    let used = "1 CALL P\nTURNS USED\n";
    for (given, status, written) in [
        ("run M S", Status::Done, done),
        ("run M S --turns 7", Status::Done, done),
        ("run M S --turns 6", Status::TurnsUsed, used),
        ("run M S --turns 0", Status::TurnsUsed, used),
        ("run M S --turns 999999999999999999", Status::Done, done),
    ] {
        let (answer, text) = call(rt.alloc(), given, turning, "CALL p(?);")?;
        assert_eq!(rt; answer, status, "at {given}");
        assert_eq!(rt; text.as_str(), written, "at {given}");
    }
    Ok(())
}

#[test]
fn other_words_show_the_usage(rt: HostRuntime) -> Result<(), Fail> {
    for given in [
        "",
        "run",
        "run M",
        "run M S T",
        "RUN M S",
        "compile",
        "compile M S T",
        "COMPILE M",
        "exec",
        "exec M",
        "exec M S T",
        "exec M S --turns 05",
        "gen",
        "gen 200001",
        "gen 07",
        "gen 7 M",
        "--help",
        "--version",
        "run M S --turns",
        "run M S --turn 5",
        "run M S --turns 05",
        "run M S --turns +5",
        "run M S --turns -5",
        "run M S --turns 5x",
        "run M S --turns 1000000000000000000",
        "run M S --turns 5 6",
        "run --turns 5 M S",
    ] {
        let (answer, text) = call(rt.alloc(), given, THREE_MODES, FIVE_SEVEN)?;
        assert_eq!(rt; answer, Status::Usage, "at {given}");
        assert_eq!(rt;
            text.as_str(),
            "usage: psm run M S [--turns N] | psm compile M | psm exec O S [--turns N] | psm gen N\n",
            "at {given}"
        );
    }
    Ok(())
}

#[test]
fn a_file_over_the_bound_is_too_long(rt: HostRuntime) -> Result<(), Fail> {
    let alloc = rt.alloc();
    let mut held = Vec::new(alloc);
    held.push((
        String::from_str(alloc, "M")?,
        vec![in alloc; b' '; 16_777_217]?,
    ))?;
    let mut shelf = MemShelf::new(alloc, held, Vec::new(alloc));
    let mut out = MemSink::new(alloc, Vec::new(alloc));
    let words = words(alloc, "run M M")?;
    assert_eq!(rt; psm(alloc, &words, &mut shelf, &mut out), Status::TooLong);
    assert_eq!(rt;
        out.bytes(),
        b"M is longer than 16777216 bytes\n".as_slice()
    );
    Ok(())
}

#[test]
fn a_fetch_that_fails_is_reported(rt: HostRuntime) -> Result<(), Fail> {
    let alloc = rt.alloc();
    for (given, fetch, written) in [
        ("run M S", 1, "cannot read M\n"),
        ("run M S", 2, "cannot read S\n"),
        ("compile M", 1, "cannot read M\n"),
        ("exec M S", 1, "cannot read M\n"),
    ] {
        let fetches = vec![in alloc; fetch]?;
        let (answer, text) = failing_call(
            alloc,
            given,
            THREE_MODES,
            FIVE_SEVEN,
            fetches,
            Vec::new(alloc),
        )?;
        assert_eq!(rt; answer, Status::ReadFault, "at {given}");
        assert_eq!(rt; text.as_str(), written, "at {given}");
    }
    Ok(())
}

#[test]
fn a_line_about_a_fetch_that_fails_is_cut_by_a_put_that_fails(rt: HostRuntime) -> Result<(), Fail> {
    let alloc = rt.alloc();
    for (kept, written) in [
        (0, ""),
        (1, "c"),
        (13, "cannot read M"),
        (14, "cannot read M\n"),
        (15, "cannot read M\n"),
    ] {
        let fetches = vec![in alloc; 1]?;
        let puts = vec![in alloc; (1, kept)]?;
        let (answer, text) = failing_call(
            alloc,
            "run M S",
            THREE_MODES,
            FIVE_SEVEN,
            fetches,
            puts,
        )?;
        assert_eq!(rt; answer, Status::WriteFault, "at {written}");
        assert_eq!(rt; text.as_str(), written, "at {written}");
    }
    Ok(())
}

#[test]
fn a_listing_is_cut_by_a_put_that_fails(rt: HostRuntime) -> Result<(), Fail> {
    let alloc = rt.alloc();
    let puts = vec![in alloc; (1, 10)]?;
    let (answer, text) = failing_call(alloc, "compile M", THREE_MODES, "", Vec::new(alloc), puts)?;
    assert_eq!(rt; answer, Status::WriteFault);
    assert_eq!(rt; text.as_str(), "PSM 3 0 1\n");
    Ok(())
}
