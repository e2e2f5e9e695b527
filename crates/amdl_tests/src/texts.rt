//! Network texts, and calls of the program on them.
use amdl_app::run;
use outside::{Files, Sink, SureFiles, SureSink};
use std::alloc::{AllocError, Global};
use std::test::Fail;

pub(crate) const SAFE_WIRE: &str = "network wire;
type Addr = {a, b};
field src : Addr;
field dst : Addr;
host p;
host q;
link p -- q;
sends p : src = a;
forbid q : src = b;
";

/// A network of this many values and fields, in which each packet is sent and forbidden.
pub(crate) fn full(alloc: Global, values: u32, fields: u32) -> Result<String, AllocError> {
    let mut text = String::from_str(alloc, "network full;\ntype T = {v0")?;
    for value in 1..values {
        text.push_str(format!(in alloc; ", v{value}")?.as_str())?;
    }
    text.push_str("};\n")?;
    for field in 0..fields {
        text.push_str(format!(in alloc; "field f{field} : T;\n")?.as_str())?;
    }
    text.push_str("host p;\nhost q;\nlink p -- q;\nsends p : true;\nforbid q : true;\n")?;
    Ok(text)
}

/// The words `VERB NAME`.
pub(crate) fn words_of(alloc: Global, verb: &str, name: &str) -> Result<Vec<String>, AllocError> {
    let mut words = Vec::new(alloc);
    words.push(String::from_str(alloc, verb)?)?;
    words.push(String::from_str(alloc, name)?)?;
    Ok(words)
}

/// The status of `VERB NAME`.
pub(crate) fn call<F: Files, S: Sink>(
    alloc: Global,
    verb: &str,
    name: &str,
    files: &mut F,
    out: &mut S,
) -> Result<u8, AllocError> {
    let words = words_of(alloc, verb, name)?;
    Ok(run(alloc, words.as_slice(), files, out))
}

/// The status of `analyse NAME`.
pub(crate) fn analyse<F: Files, S: Sink>(
    alloc: Global,
    name: &str,
    files: &mut F,
    out: &mut S,
) -> Result<u8, AllocError> {
    call(alloc, "analyse", name, files, out)
}

/// The status and the sink of the verb over one text.
pub(crate) fn reply_of(alloc: Global, verb: &str, text: &[u8]) -> Result<(u8, SureSink), Fail> {
    let mut files = SureFiles::new(alloc);
    files.keep("net", text)?;
    let mut out = SureSink::new(alloc);
    let status = call(alloc, verb, "net", &mut files, &mut out)?;
    Ok((status, out))
}

/// The status and the sink of the analysis of one text.
pub(crate) fn analysis_of(alloc: Global, text: &str) -> Result<(u8, SureSink), Fail> {
    reply_of(alloc, "analyse", text.as_bytes())
}

/// Whether the verb over one text has this status and puts out these bytes.
pub(crate) fn replies(
    alloc: Global,
    verb: &str,
    text: &[u8],
    status: u8,
    bytes: &[u8],
) -> Result<bool, Fail> {
    let (answer, out) = reply_of(alloc, verb, text)?;
    Ok(answer == status && out.bytes() == bytes)
}

/// Whether `check` and `analyse` refuse a text at this item by this rule.
pub(crate) fn refuses(alloc: Global, text: &str, item: u32, rule: &str) -> Result<bool, Fail> {
    let line = format!(in alloc; "refused network item {item} {rule}\n")?;
    let checked = replies(alloc, "check", text.as_bytes(), 3, line.as_bytes())?;
    Ok(checked && replies(alloc, "analyse", text.as_bytes(), 3, line.as_bytes())?)
}

/// Appends a piece so many times, with its number in place of each `@`.
pub(crate) fn put_pieces(
    alloc: Global,
    text: &mut String,
    piece: &str,
    count: u32,
) -> Result<(), AllocError> {
    for number in 0..count {
        let digits = format!(in alloc; "{number}")?;
        for letter in piece.chars() {
            if letter == '@' {
                text.push_str(digits.as_str())?;
            } else {
                text.push(letter)?;
            }
        }
    }
    Ok(())
}

/// Whether the verb over a file that isn't there has status 4 and says so.
pub(crate) fn misses(alloc: Global, verb: &str) -> Result<bool, Fail> {
    let mut files = SureFiles::new(alloc);
    let mut out = SureSink::new(alloc);
    let status = call(alloc, verb, "none.amdl", &mut files, &mut out)?;
    Ok(status == 4 && out.bytes() == b"missing none.amdl\n".as_slice())
}
