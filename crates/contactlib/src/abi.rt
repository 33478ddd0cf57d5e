// Which records and functions this library has, as a number: a host compares it with the one that its header or wrapper was written for.
ghost use Rattle.std.specs.Prelude.{◌≡◌};
ghost use Rattle.contactlib.specs.Abi.{abi_number};

pub const ABI: u32 = 7;

pub fn contact_abi() -> u32
    ensures { result ≡ abi_number }
{
    ABI
}
