// Where an assignment puts what a name is given.
use j_leaves::Text;

/// Where an assignment puts what a name is given.
#[derive(Drop)]
pub enum Target {
    /// The locals of the running definition.
    Local,
    /// The current locale.
    Current,
    /// A locale that is named.
    Locale(Text),
}
