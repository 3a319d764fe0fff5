//! Texts of files with tokens.
use mvd_input::{PassFault, passes_in};
use std::alloc::{AllocError, Global};
use std::test::Fail;

/// Texts, and what their lines say: of each a token, whether it may write, and what keys begin with.
const TEXTS: &[(&str, &[(&str, bool, &str)])] = &[
    ("sixteen-letters!", &[("sixteen-letters!", true, "")]),
    ("sixteen-letters!\n", &[("sixteen-letters!", true, "")]),
    (
        "!#$~sixteen-letters!\nsixteen-letters! read\n",
        &[
            ("!#$~sixteen-letters!", true, ""),
            ("sixteen-letters!", false, ""),
        ],
    ),
    (
        "sixteen-letters! write u1/\nsixteen-letters? read u1/",
        &[
            ("sixteen-letters!", true, "u1/"),
            ("sixteen-letters?", false, "u1/"),
        ],
    ),
    ("sixteen-letters! write", &[("sixteen-letters!", true, "")]),
];

/// Texts that are none, and the line at fault.
const FAULTS: &[(&str, u64)] = &[
    ("", 1),
    ("\n", 1),
    ("\nsixteen-letters!\n", 1),
    ("fifteen-letters\n", 1),
    (" sixteen-letters!\n", 1),
    ("sixteen-letters!\r\n", 1),
    ("sixteen-letters!\t\n", 1),
    ("sixteen-letters!\u{7f}\n", 1),
    ("sixteen-lettérs!\n", 1),
    ("sixteen letters!\n", 1),
    ("sixteen-letters! \n", 1),
    ("sixteen-letters! Read\n", 1),
    ("sixteen-letters! reads\n", 1),
    ("sixteen-letters! read \n", 1),
    ("sixteen-letters! read u1/ x\n", 1),
    ("sixteen-letters!  read\n", 1),
    ("sixteen-letters!\nand more\n", 2),
    ("sixteen-letters!\n\n", 2),
    ("sixteen-letters!\nsixteen-letters! read\n", 2),
    ("sixteen-letters!\nsixteen-letters?\nsixteen-letters!\n", 3),
];

/// Whether the lines of a text say this.
fn says(alloc: Global, text: &[u8], wanted: &[(&str, bool, &str)]) -> bool {
    match passes_in(alloc, text) {
        Ok(passes) => {
            passes.len() == wanted.len()
                && passes.iter().zip(wanted).all(|(pass, wanted)| {
                    pass.token == wanted.0.as_bytes()
                        && pass.writes == wanted.1
                        && pass.prefix == wanted.2.as_bytes()
                })
        }
        Err(_) => false,
    }
}

/// The line at fault of a text, 65 where there are too many, and 0 where none is.
fn fault_of(alloc: Global, text: &[u8]) -> u64 {
    match passes_in(alloc, text) {
        Err(PassFault::BadLine(line)) | Err(PassFault::SameToken(line)) => line,
        Err(PassFault::TooMany) => 65,
        Ok(_) | Err(PassFault::Memory) => 0,
    }
}

/// Whether so many letters are a token.
fn are_token(alloc: Global, letters: usize) -> Result<bool, AllocError> {
    let mut text = Vec::new(alloc);
    text.resize(letters, b'x')?;
    Ok(fault_of(alloc, &text) == 0)
}

/// The fault of a text of so many lines, each a token of its own.
fn fault_of_lines(alloc: Global, count: u32) -> Result<u64, AllocError> {
    let mut text = String::new(alloc);
    for line in 0..count {
        text.push_str(format!(in alloc; "sixteen-letters-{line}\n")?.as_str())?;
    }
    Ok(fault_of(alloc, text.as_bytes()))
}

#[test]
fn lines_of_tokens(rt: HostRuntime) -> Result<(), Fail> {
    for (text, wanted) in TEXTS {
        assert!(rt; says(rt.alloc(), text.as_bytes(), wanted), "{text}");
    }
    for (text, line) in FAULTS {
        assert!(rt; fault_of(rt.alloc(), text.as_bytes()) == *line, "{text}");
    }
    assert!(rt; !are_token(rt.alloc(), 15)?);
    assert!(rt; are_token(rt.alloc(), 16)?);
    assert!(rt; are_token(rt.alloc(), 256)?);
    assert!(rt; !are_token(rt.alloc(), 257)?);
    assert!(rt; fault_of_lines(rt.alloc(), 64)? == 0);
    assert!(rt; fault_of_lines(rt.alloc(), 65)? == 65);
    Ok(())
}
