//! Walks in graphs: nodes 0, 1, .. with a list of edges' ends for each of them, entered at node 0. Two questions are
//! answered in linear time. `unshown` shows by a claimed dominator tree that nodes stand on every walk to others (`Guards`),
//! and answers what it could not show. `first_lacking` answers the first of the shortest walks without some edges
//! (`IsFirstLacking`), or that there is none. How the tree was found needs no proof: `claim` has no contract but bounds.
#![tactic(auto)]

mod claimed;
mod cut;
mod distances;
mod dominators;
mod follow;
mod marks;
mod needs;
mod numbered;
mod search;
mod settle;
mod shown;
mod turned;

pub use claimed::{Need, OpenNeed, Tree};
pub use cut::Cut;
pub use dominators::claim;
pub use search::first_lacking;
pub use shown::{cover_sound, unshown};
