// Checks before an effect: made one after the other on values, by `?`, so that the first that fails decides.
#![tactic(auto)]

ghost use Rattle.std.specs.Prelude.{◌≡◌, true, false, not};
ghost use Rattle.manual.specs.Cap.{permits, access_bit, register_open};
ghost use Rattle.manual.specs.Checks.{Guards, stop_number, lacking, TAG, SEAL};

use manual::{Fault, Named, SEAL, TAG};

// A function and no From: of the numbers that are told of a fault, its name says which.
pub fn stop_number(fault: Fault) -> u8
    ensures { result ≡ stop_number fault }
{
    match fault {
        Fault::Raise(_, _) => 1,
        Fault::Misaligned => 2,
        Fault::StoreMisaligned => 3,
        Fault::Reserved => 4,
        Fault::Nowhere => 5,
        Fault::IntoFlash => 6,
        Fault::Pending => 7,
        Fault::Break => 8,
    }
}

// The cause where a permission is lacking; a function and no From, since it is a cause of one kind alone.
pub fn lacking_cause(permission: u32) -> u8
    ensures { result ≡ lacking permission }
{
    ((16 + permission % 256) % 256) as u8
}

// One check: what follows comes to pass only if it holds.
pub fn guarded(holds: bool, fault: Fault) -> Result<(), Fault>
    ensures { Guards holds fault result }
{
    if holds { Ok(()) } else { Err(fault) }
}

pub fn that(holds: bool, cause: u8, register: u8) -> Result<(), Fault>
    ensures { Guards holds (Fault.Raise cause register) result }
{
    guarded(holds, Fault::Raise(cause, register))
}

// A PCC with these permissions may name the register.
pub fn opened(perms: u32, register: u8) -> Result<(), Fault>
    ensures { Guards (register_open perms register) (Fault.Raise (lacking (access_bit register)) register) result }
{
    let cause = lacking_cause(cap::access_bit(register));
    that(cap::register_open(perms, register), cause, register)
}

pub fn tagged(c: Named) -> Result<(), Fault>
    ensures { Guards c.cap.tag (Fault.Raise TAG c.number) result }
{
    that(c.cap.tag, TAG, c.number)
}

pub fn unsealed(c: Named) -> Result<(), Fault>
    ensures { Guards (not c.cap.sealed) (Fault.Raise SEAL c.number) result }
{
    that(!c.cap.sealed, SEAL, c.number)
}

// The register grants a permission of table 3.2.
pub fn granted(c: Named, permission: u32) -> Result<(), Fault>
    ensures { Guards (permits c.cap permission) (Fault.Raise (lacking permission) c.number) result }
{
    let cause = lacking_cause(permission);
    that(cap::permits(c.cap.perms, permission), cause, c.number)
}
