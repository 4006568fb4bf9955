//! The diagrams of a table, whatever its labelling.

ghost use Rattle.std.specs.Prelude.{◌≡◌};
ghost use Rattle.mvl.specs.Charts.{chart_meaning};
ghost use Rattle.tables.specs.Cards.{shape_of, capacity_of};
ghost use Rattle.tables.specs.Stores.{items, limit_of};
ghost use Rattle.tables.specs.Sounds.{Sound};

use crate::parts::card::Card;
use crate::parts::store::Store;
use mvl::chart::Chart;

/// A chart, a card and a store that belong together.
#[derive(Drop)]
pub(crate) struct Diagrams {
    pub(crate) chart: Chart,
    pub(crate) card: Card,
    pub(crate) store: Store,
    ghost room: { limit_of store ≡ capacity_of card },
    ghost sound: { ∥ Sound (chart_meaning chart) (shape_of card) (items store) ∥₁ },
}
