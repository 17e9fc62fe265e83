ghost use Rattle.std.specs.Prelude.{◌≡◌};
ghost use Rattle.event_text.specs.RoleWord.{role_of, role_text};

use ckpt_policy::Role;

/// All roles.
const ROLES: [Role; 4] = [Role::Writer, Role::Reader, Role::Watchdog, Role::Owner];

/// The word of a role.
pub fn role_text(role: Role) -> &'static str
    ensures { result.now ≡ role_text role }
{
    match role {
        Role::Writer => "writer",
        Role::Reader => "reader",
        Role::Watchdog => "watchdog",
        Role::Owner => "owner",
    }
}

/// The role that a word spells, where it spells one. Takes no memory.
pub fn role_of(word: &[u8]) -> Option<Role>
    ensures { result ≡ role_of word.now }
{
    ROLES
        .iter()
        .find(|role| role_text(**role).as_bytes() == word)
        .copied()
}
