ghost use Rattle.rules.specs.Lists.{LeadsGiveAShortestWay, SpanBoundsACycle};

/// Holds the theorem that the leads of a lawful rule are a shortest way to a place where the end is admitted.
pub fn leads_stand()
    ensures { LeadsGiveAShortestWay }
{}

/// Holds the theorem that no list without the end, admitted by a lawful rule, is longer than the span.
pub fn spans_stand()
    ensures { SpanBoundsACycle }
{}
