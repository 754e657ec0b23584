// The exit status.
ghost use Rattle.std.specs.Prelude.{◌≡◌};
ghost use Rattle.certifier.specs.Status.{status_of};

use crate::printing::Failure;
use certificate::Ending;

// By the certificate's ending where that is asked for, and else by whether one was printed.
pub fn status(answer: &Result<Ending, Failure>, by_ending: bool) -> u8
    ensures { result ≡ status_of answer.now by_ending }
{
    match answer {
        Ok(_) if !by_ending => 0,
        Ok(Ending::Clean) => 0,
        Ok(Ending::NotClean) => 1,
        Ok(Ending::Refused) => 2,
        Err(_) if !by_ending => 1,
        Err(_) => 3,
    }
}
