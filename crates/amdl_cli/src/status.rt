//! From the arguments of the program to its exit status.
ghost use Rattle.std.specs.Prelude.{◌≡◌, ◌≤◌, ◌↔◌, IsOk, IfErr, OnOk};
ghost use Rattle.std.specs.IoError.{error_kind};

use amdl_app::run;
use outside::{Files, Sink};
use std::alloc::{AllocError, Global};
use std::env::Args;
use std::io::{self, ErrorKind};

/// The status where taking the words finds no memory.
const NO_MEMORY: u8 = 6;

/// The status where the system refuses the words for another cause.
const NO_WORDS: u8 = 7;

/// Runs the program on its arguments, of which the first is its own name, and answers its exit status: that of `run`,
/// or where the system gave no arguments 6 for want of memory and 7 for every other cause. Then nothing is put out.
pub fn status_of_call<F: Files, S: Sink>(
    alloc: Global,
    args: io::Result<Args<Global>>,
    files: &mut F,
    out: &mut S,
) -> u8
    ensures given { OnOk args (result ≤ 6) }
    ensures no_memory { IfErr args (λ error. error_kind error ≡ ErrorKind.OutOfMemory → result ≡ NO_MEMORY) }
    ensures refused { IfErr args (λ error. (error_kind error ≡ ErrorKind.OutOfMemory → ⊥) → result ≡ NO_WORDS) }
{
    match args {
        Ok(args) => match words_of(alloc, args) {
            Ok(words) => run(alloc, words.as_slice(), files, out),
            Err(AllocError) => NO_MEMORY,
        },
        Err(error) if error.kind() == ErrorKind::OutOfMemory => NO_MEMORY,
        Err(_) => NO_WORDS,
    }
}

// The words after the program's name.
fn words_of(alloc: Global, args: Args<Global>) -> Result<Vec<String>, AllocError> {
    let mut words = Vec::new(alloc);
    for word in args.skip(1) {
        words.push(word)?;
    }
    Ok(words)
}

#[cfg(test)]
mod tests {
    use super::status_of_call;
    use outside::{SureFiles, SureSink};
    use std::io::{self, Error, ErrorKind};
    use std::test::Fail;

    const NETWORK: &[u8] =
        b"network x;\ntype T = {a};\nfield f : T;\nhost p;\nhost q;\nlink p -- q;\nsends p : true;\nforbid p : true;\n";

    const CALLS: [(&str, &[&str], u8); 8] = [
        ("SAFE", &["amdl", "analyse", "net"], 0),
        ("counts", &["amdl", "check", "net"], 0),
        ("a name that is a verb", &["analyse", "analyse", "net"], 0),
        ("no words", &["amdl"], 2),
        ("a word too few", &["amdl", "analyse"], 2),
        (
            "a word too many",
            &["amdl", "analyse", "net", "net", "net"],
            2,
        ),
        ("a refused text", &["amdl", "analyse", "empty"], 3),
        ("no such file", &["amdl", "analyse", "none"], 4),
    ];

    #[test]
    fn each_status_is_handed_on(rt: HostRuntime) -> Result<(), Fail> {
        let alloc = rt.alloc();
        for (label, args, status) in CALLS {
            let mut words = Vec::new(alloc);
            for word in args {
                words.push(String::from_str(alloc, word)?)?;
            }
            let mut files = SureFiles::new(alloc);
            files.keep("net", NETWORK)?;
            files.keep("empty", b"")?;
            let mut out = SureSink::new(alloc);
            let given = status_of_call(alloc, Ok(words.into_iter()), &mut files, &mut out);
            assert_eq!(rt; given, status, "{label}");
        }
        Ok(())
    }

    #[test]
    fn words_that_the_system_refuses(rt: HostRuntime) {
        for (kind, status) in [(ErrorKind::OutOfMemory, 6), (ErrorKind::InvalidData, 7)] {
            let mut files = SureFiles::new(rt.alloc());
            let mut out = SureSink::new(rt.alloc());
            let given = status_of_call(rt.alloc(), Err(Error::from(kind)), &mut files, &mut out);
            assert_eq!(rt; given, status, "{status}");
            assert!(rt; out.bytes().is_empty(), "{status}");
        }
    }
}
