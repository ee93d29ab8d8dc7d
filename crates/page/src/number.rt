// The page reader's answer as the one number of the rules.
ghost use Rattle.std.specs.Prelude.{◌≡◌, ◌^◌, ◌<◌};
ghost use Rattle.page.specs.Page.{read_number};

use gtb::Refusal;

pub fn read(answer: Result<(u32, u32), Refusal>) -> u32
    requires { read_number answer < 2 ^ 32 }
    ensures { result ≡ read_number answer }
{
    match answer {
        Ok((number, count)) => 1024 * number + count,
        Err(e) => gtb::number::refused(e),
    }
}
