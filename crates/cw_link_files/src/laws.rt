//! Laws of the list that is linked.
ghost use Rattle.cw_link_files.specs.Parts.{HasOneLinkList, LinksObjectsAlone};

use cw_pick::laws::one_selection;

/// Files come to one list of objects, and objects alone to themselves.
pub fn one_link_list()
    ensures one { HasOneLinkList }
    ensures alone { LinksObjectsAlone }
{
    one_selection();
}
