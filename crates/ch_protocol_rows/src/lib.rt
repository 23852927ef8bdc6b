//! Worked schedules of the protocol, by which its definitions are checked.
//!
//! Each function here has an empty body. Its contract lists schedules over small tables, with what the run comes to: its
//! outcome, its counts, the acknowledged numbers and the received names.
#![tactic(auto)]

ghost use Rattle.ch_protocol_rows.specs.Rows.{FilterEndToEnd, EmptyPart, TwoParts, ReorderedBeforeTheSwitch, OpenRun, OpenRunReceived, Repeats, RepeatsOfAKey, OneCachedKey, LostFourTimes, LostThenDrained, KeptAtItsPlace, InjectedByte, WindowOfOne, FinWaits, WindowFromTheLeast, NothingThere, OldAckAfterARestart, OldPacketAfterARestart, CutAtARestart, BeforeTheCut, ExpectedAfterARestart, ExpectedFromTheLeast, PrunedInTheNewEpoch, FinInTheNewEpoch, PassedInTheNewEpoch, RestartInPass2, SumOnOneCell, LostAckInPass1, LostAckInPass2, RestartBeforeTwoPasses, OldAckInPass2, Join, SemiJoin, CountAtItsEnd, StepsAtTheirEnd, NothingAfterTheEnd, EveryFate, EventsOfDrain, ResendsOfDrain, RowsInOrder};

/// One pass: loss, repeats and reordering.
pub fn worked_in_one_pass()
    ensures filter_end_to_end { FilterEndToEnd }
    ensures empty_part { EmptyPart }
    ensures two_parts { TwoParts }
    ensures reordered_before_the_switch { ReorderedBeforeTheSwitch }
    ensures open_run { OpenRun }
    ensures open_run_received { OpenRunReceived }
    ensures repeats { Repeats }
    ensures repeats_of_a_key { RepeatsOfAKey }
    ensures one_cached_key { OneCachedKey }
    ensures lost_four_times { LostFourTimes }
    ensures lost_then_drained { LostThenDrained }
    ensures kept_at_its_place { KeptAtItsPlace }
    ensures injected_byte { InjectedByte }
{}

/// What a worker may send.
pub fn worked_on_windows()
    ensures window_of_one { WindowOfOne }
    ensures fin_waits { FinWaits }
    ensures window_from_the_least { WindowFromTheLeast }
    ensures nothing_there { NothingThere }
{}

/// Restarts of the switch.
pub fn worked_with_restarts()
    ensures old_ack_after_a_restart { OldAckAfterARestart }
    ensures old_packet_after_a_restart { OldPacketAfterARestart }
    ensures cut_at_a_restart { CutAtARestart }
    ensures before_the_cut { BeforeTheCut }
    ensures expected_after_a_restart { ExpectedAfterARestart }
    ensures expected_from_the_least { ExpectedFromTheLeast }
    ensures pruned_in_the_new_epoch { PrunedInTheNewEpoch }
    ensures fin_in_the_new_epoch { FinInTheNewEpoch }
    ensures passed_in_the_new_epoch { PassedInTheNewEpoch }
    ensures restart_in_pass_2 { RestartInPass2 }
{}

/// Two passes.
pub fn worked_in_two_passes()
    ensures sum_on_one_cell { SumOnOneCell }
    ensures lost_ack_in_pass_1 { LostAckInPass1 }
    ensures lost_ack_in_pass_2 { LostAckInPass2 }
    ensures restart_before_two_passes { RestartBeforeTwoPasses }
    ensures old_ack_in_pass_2 { OldAckInPass2 }
    ensures join { Join }
    ensures semi_join { SemiJoin }
{}

/// Counts at their end, and after the run has stopped.
pub fn worked_on_counts()
    ensures count_at_its_end { CountAtItsEnd }
    ensures steps_at_their_end { StepsAtTheirEnd }
    ensures nothing_after_the_end { NothingAfterTheEnd }
{}

/// The fates of events, drain as a list of them, and what the master received in order.
pub fn worked_on_events()
    ensures every_fate { EveryFate }
    ensures events_of_drain { EventsOfDrain }
    ensures resends_of_drain { ResendsOfDrain }
    ensures rows_in_order { RowsInOrder }
{}
