// The words that the system gives, and the exit status that it takes.
ghost use Rattle.std.specs.Prelude.{◌≡◌, ◌≢◌, drop, OnOk, IfOk, IfErr, Err};
ghost use Rattle.std.specs.IoError.{error_kind};
ghost use Rattle.std.specs.Process.{exit_status};
ghost use Rattle.std.specs.Vec.Iter.{into_iter_items};

use std::alloc::Global;
use std::env::Args;
use std::io;
use std::io::ErrorKind;
use std::process::ExitCode;

/// The words behind the program's name, all of them and in their order. `wanting` is the answer where there is no memory for them, and
/// `none` where the system gives no words for another reason.
pub fn words_given<S: Copy>(
    alloc: Global,
    args: io::Result<Args>,
    none: S,
    wanting: S,
) -> Result<Vec<String>, S>
    ensures words { IfOk args (λ given. IfOk result (λ words.
        words.items ≡ drop 1 (into_iter_items given))) }
    ensures wanting { OnOk args (IfErr result (λ status. status ≡ wanting)) }
    ensures none { IfErr args (λ error. error_kind error ≢ ErrorKind.OutOfMemory
        → result ≡ Err none) }
    ensures unheld { IfErr args (λ error. error_kind error ≡ ErrorKind.OutOfMemory
        → result ≡ Err wanting) }
{
    let args = match args {
        Ok(args) => args,
        Err(error) if error.kind() == ErrorKind::OutOfMemory => return Err(wanting),
        Err(_) => return Err(none),
    };
    let mut words = Vec::new(alloc);
    for word in args.skip(1) {
        if words.push(word).is_err() {
            return Err(wanting);
        }
    }
    Ok(words)
}

/// The exit status that has this number.
pub fn exit_code(status: u8) -> ExitCode
    ensures { exit_status result ≡ status }
{
    ExitCode::from(status)
}
