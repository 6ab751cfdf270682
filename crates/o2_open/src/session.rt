// What a command runs.

use o2_conf::Conf;
use o2_dynlink::Linked;

/// What a command runs: its setting, and its modules.
#[derive(Drop)]
pub struct Session {
    /// The setting.
    pub conf: Conf,
    /// The linked modules.
    pub linked: Linked,
}
