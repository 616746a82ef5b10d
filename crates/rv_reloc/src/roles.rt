// Claims of relocations to roles of instructions, and the roles that win.
ghost use Rattle.std.specs.Prelude.{◌≡◌, ◌↔◌, ◌<◌, ℕ, IfOk, IsTrue, AllPairs, length};
ghost use Rattle.elf_image.specs.declared.elf.Elf.{Elf};
ghost use Rattle.elf_code.specs.FileCode.{AreRoles};
ghost use Rattle.rv_reloc.specs.Claims.{AreClaims, IsClaimUpTo, IsFirstClaim};

use rb_bytes::fault::NoMemory;
use rv_code::Role;
use std::alloc::Global;

/// A relocation's claim that an instruction has a role. Of the claims to one instruction, the first by type and then by
/// key wins.
#[derive(Clone, Copy)]
pub struct Claim {
    /// The address of the instruction.
    pub at: u64,
    /// The type of the relocation.
    pub kind: u32,
    /// The address of the AUIPC, or the target of an absolute address. Claims to one instruction with the same type and
    /// key have the same role.
    pub key: u64,
    pub role: Role,
}

fn is_first(claims: &[Claim], index: usize) -> bool
    requires order { AllPairs IsClaimUpTo claims.now }
    requires index { index < length claims.now }
    ensures { IsTrue result ↔ IsFirstClaim claims.now index }
{
    index == 0 || claims[index - 1].at < claims[index].at
}

/// The role at each address, from sorted claims: the role of the first claim for the address.
pub fn first_roles(alloc: Global, claims: &[Claim]) -> Result<Vec<(u64, Role)>, NoMemory>
    requires { AllPairs IsClaimUpTo claims.now }
    ensures { (elf : Elf) → AreClaims elf claims.now → IfOk result (λ roles. AreRoles elf roles.items) }
{
    let mut roles = Vec::new(alloc);
    for (index, claim) in claims.iter().enumerate() {
        if !is_first(claims, index) {
            continue;
        }
        roles.push((claim.at, claim.role))?;
    }
    Ok(roles)
}
