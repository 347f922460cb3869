//! The versions in use.
ghost use Rattle.std.specs.Prelude.{◌≡◌, IfOk};
ghost use Rattle.std.specs.Option.{option_map};
ghost use Rattle.engine_sessions.specs.Standing.{used_by, with_use};

use par_base::{List, Memory, Name};
use std::alloc::Global;

/// The version that a session uses, by its name. It may be gone.
#[derive(Drop)]
pub struct VersionInUse {
    pub session: u8,
    pub version: Name,
}

impl VersionInUse {
    fn copy(&self, alloc: Global) -> Result<VersionInUse, Memory>
        ensures { IfOk result (λ made. made ≡ self.now) }
    {
        Ok(VersionInUse {
            session: self.session,
            version: self.version.copy(alloc)?,
        })
    }
}

/// The version that a session has in use. It takes one comparison for each session that has one.
pub fn find_use(uses: &[VersionInUse], session: u8) -> Option<&Name>
    ensures { option_map (λ name. name.now) result ≡ used_by uses.now session }
{
    match uses.iter().find(|used| used.session == session) {
        Some(used) => Some(&used.version),
        None => None,
    }
}

/// The versions in use, where this session uses this version from now on. It takes time in the
/// number of sessions that have one.
pub fn use_version(
    alloc: Global,
    uses: &[VersionInUse],
    session: u8,
    version: Name,
) -> Result<List<VersionInUse>, Memory>
    ensures { IfOk result (λ made. made ≡ with_use uses.now session version) }
{
    let mut made = List::new(alloc);
    for used in uses {
        if used.session != session {
            made.push(used.copy(alloc)?)?;
        }
    }
    made.push(VersionInUse { session, version })?;
    Ok(made)
}
