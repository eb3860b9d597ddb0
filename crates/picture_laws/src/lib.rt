//! The laws of pictures: runs that differ only in the order of independent steps show the same, whatever their tickets;
//! one order of events shows the same at each index; and so in the canonical order, as saved traces have it, such runs
//! have one page, byte for byte. Each lane of the data is a chain. The data of a picture are read back. The
//! functions do nothing, their contracts say it.
#![tactic(auto)]

ghost use Rattle.picture_laws.specs.DataRead.{DataAreReadBack};
ghost use Rattle.picture_laws.specs.EqualPages.{EqualRunsHaveOnePage};
ghost use Rattle.picture_laws.specs.EqualPictures.{EqualRunsShowTheSame, OneRunShowsTheSame};
ghost use Rattle.picture_laws.specs.LaneChains.{ShownLanesAreChains};

use depth_laws::lanes_are_chains;
use json_text::texts_have_one_value;
use waiting::{one_ring_is_told, waiters_have_one_order};

/// The pictures of two runs that differ only in the order of independent steps show the same of each event, and of the
/// state that both reach.
pub fn equal_runs_show_the_same()
    ensures { EqualRunsShowTheSame }
{
    waiters_have_one_order();
    one_ring_is_told();
}

/// Two pictures of one run have the same at each index.
pub fn one_run_shows_the_same()
    ensures { OneRunShowsTheSame }
{
    waiters_have_one_order();
    one_ring_is_told();
}

/// Where the events of two such runs stand in the canonical order, the data and the page have the same bytes.
pub fn equal_runs_have_one_page()
    ensures { EqualRunsHaveOnePage }
{
    waiters_have_one_order();
    one_ring_is_told();
}

/// Of two live events that a picture tells in one lane, the later depends directly on the earlier, so each lane is a
/// chain.
pub fn shown_lanes_are_chains()
    ensures { ShownLanesAreChains }
{
    lanes_are_chains();
}

/// The data of a picture are read as JSON of just the value that they are.
pub fn data_are_read_back()
    ensures { DataAreReadBack }
{
    texts_have_one_value();
}
