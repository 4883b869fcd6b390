// The digit that a service is written as.
ghost use Rattle.std.specs.Prelude.{◌≡◌};
ghost use Rattle.text.specs.Service.{service_digit};

use rights::Service;

pub fn service_digit(s: Service) -> u8
    ensures { result ≡ service_digit s }
{
    b'0' + s as u8
}
