// Numbers and names.
ghost use Rattle.std.specs.Prelude.{◌≡◌};
ghost use Rattle.ante_calls.specs.Calls as calls;

use ante_pack::Name;

/// The argument at this place, from 0, as it is; 0 where there is none.
pub fn arg(args: &[u64], at: usize) -> u64
    ensures { result ≡ calls.arg args.now at }
{
    match args.get(at) {
        Some(value) => *value,
        None => 0,
    }
}

/// The low 32 bits of an argument.
pub fn arg32(args: &[u64], at: usize) -> u32
    ensures { result ≡ calls.arg32 args.now at }
{
    (arg(args, at) % (1 << 32)) as u32
}

/// An argument as a signed number of 32 bits.
pub fn signed_arg(args: &[u64], at: usize) -> i32
    ensures { result ≡ calls.signed_arg args.now at }
{
    arg32(args, at).cast_signed()
}

/// An argument as the number of a name.
pub fn name_arg(args: &[u64], at: usize) -> Name
    ensures { result ≡ calls.name_arg args.now at }
{
    Name(arg(args, at))
}
